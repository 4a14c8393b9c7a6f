//! The table of a shelf: the best choice among the products from each on, for each space that is left.
#![tactic(auto)]

mod room;
mod table;

pub use room::{first_open, room_left, spaces_of};
pub use table::ShelfTable;

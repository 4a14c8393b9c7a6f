//! Which limits an assortment breaks, which nodes clash with a limit, and which kind of limits a problem has.
#![tactic(auto)]

mod broken;
mod choice;
mod clash;
mod fill;
mod kind;
mod ladder;
mod laws;
mod measure;
mod meets;
mod on_ladder;
mod order;
mod priced;

pub use broken::first_broken;
pub use clash::clashes;
pub use fill::fill_out;
pub use kind::{Kind, kind_of};
pub use ladder::may_stand;
pub use laws::worked_kinds_hold;
pub use on_ladder::ladder_products;
pub use order::comes_after;
pub use priced::is_priced;

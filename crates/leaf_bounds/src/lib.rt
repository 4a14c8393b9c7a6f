//! The bounds of leaves by a shelf's table, by potentials of ladders and by numbers of segments, and what is kept for them from leaf to leaf.
#![tactic(auto)]

mod kept_table;
mod ladders;
mod numbers;
mod potentials;
mod segments;
mod shelf;

pub use kept_table::{KeptTable, settled_first};
pub use ladders::Ladders;
pub use numbers::signed;
pub use potentials::Potentials;
pub use segments::{fit_segments, sum_of_segments};
pub use shelf::ShelfRow;

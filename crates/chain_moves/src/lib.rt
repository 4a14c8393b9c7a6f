//! What chains are read by: the moves from each product, margins and bounds in millionths, the gap.
#![tactic(auto)]

mod gap;
mod rows;
mod totals;
mod values;

pub use gap::gap_of;
pub use rows::{Move, parts_of, rows_of, sum_moves};
pub use totals::{lo_of, up_of};
pub use values::{MILLION, MOST_VALUE, margins_of, value_bound};

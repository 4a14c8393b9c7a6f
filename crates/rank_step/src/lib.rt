//! Steps by rank: without limits, and under caps in all and by category.
#![tactic(auto)]

mod candidates;
mod caps;
mod free;
mod greedy;
mod multipliers;
mod places;
mod rooms;

pub use caps::CapsStep;
pub use free::FreeStep;

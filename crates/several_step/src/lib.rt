//! The step under limits of several kinds: a search over the feasible completions of a node, bounded by prices that multipliers
//! relax and by the best chains of ladders.
#![tactic(auto)]

mod bounding;
mod branch_order;
mod branching;
mod chains;
mod descent;
mod first;
mod pace;
mod rounding;
mod rungs;
mod scaling;
mod searching;
mod slopes;
mod step;
mod weights_goal;

pub use step::SearchStep;

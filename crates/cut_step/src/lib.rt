//! Steps for problems whose limits are all requirements: a closed set of greatest weight by a minimum cut, and the
//! multipliers that prove it greatest.
#![tactic(auto)]

mod adjacency;
mod flow;
mod forced;
mod funded;
mod phase;
mod push;
mod reach;
mod rows;
mod search;
mod solve;
mod step;

pub use step::ClosureStep;

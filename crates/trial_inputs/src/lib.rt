//! Trial inputs: problems of mixed logit that anybody can make again from a seed and a count.
#![tactic(auto)]

mod draws;
mod laws;
mod products;
mod segments;
mod trial;

pub use laws::worked_trial_holds;
pub use trial::{trial_margins, trial_problem};

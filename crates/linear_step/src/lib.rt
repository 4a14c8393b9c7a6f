//! Weights of products at a trial revenue, and what a step over them promises: a feasible completion of greatest weight,
//! and what closes a node.
#![tactic(auto)]

mod closing;
mod pricing;
mod step;
mod steps;

pub use closing::Closing;
pub use linear_weights::Weights;
pub use pricing::weights_at;
pub use step::{Closer, Step};
pub use steps::Steps;

//! A weight for each product and a constant: what an assortment weighs, and what completions of a node weigh at most.
#![tactic(auto)]

mod sums;
mod weights;

pub use sums::{most_of, plus};
pub use weights::Weights;

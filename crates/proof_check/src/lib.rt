//! Checks certificates line by line, for problems under every model.
#![tactic(auto)]

mod checker;
mod claim;
mod header;
mod leaf;
mod machine;
mod problem_leaves;
mod ratio_leaves;
mod segment_leaves;
mod segments;

pub use checker::{Checker, Verdict};

//! What the commands print, as bytes.
#![tactic(auto)]

mod pieces;
mod report;

pub use pieces::{model_text, put, put_number, put_set, put_value};
pub use report::{report_chain, report_problem, report_trial};

//! What a given assortment brings: chances of choices, and the report of them as bytes.
#![tactic(auto)]

mod chances;
mod laws;
mod pieces;
mod report;

pub use chances::{chance, leave};
pub use laws::worked_reports_hold;
pub use report::report_eval;

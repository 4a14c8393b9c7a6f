//! What holds of the definitions, as clauses.
ghost use Rattle.eval_reports.specs.WorkedReports.{ReportsAreWorked};

#[tactic(auto, using(crate::proofs::WorkedReportLemmas::reports_worked))]
/// Reports have the bytes that were worked by hand.
pub fn worked_reports_hold()
    ensures { ReportsAreWorked }
{}

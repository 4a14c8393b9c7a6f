//! What holds of the kinds, as a clause.
ghost use Rattle.limit_rules.specs.WorkedKinds.{KindsAreWorked};

#[tactic(auto, using(crate::proofs::WorkedKindLemmas::kinds_worked))]
/// The kinds have the values that were worked by hand.
pub fn worked_kinds_hold()
    ensures { KindsAreWorked }
{}

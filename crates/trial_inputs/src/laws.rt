//! What holds of the definitions, as a clause.
ghost use Rattle.trial_inputs.specs.WorkedTrials.{TrialIsWorked};

#[tactic(auto, using(crate::proofs::WorkedTrialLemmas::trial_worked))]
/// The definitions have the values that were worked by hand.
pub fn worked_trial_holds()
    ensures { TrialIsWorked }
{}

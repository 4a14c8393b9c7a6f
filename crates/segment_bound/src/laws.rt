//! What holds of bounds and goal, as a clause.
ghost use Rattle.segment_bound.specs.WorkedBounds.{BoundsAreWorked};

#[tactic(auto, using(crate::proofs::WorkedBoundLemmas::bounds_worked))]
/// Bounds and goal have the values that were worked by hand.
pub fn worked_bounds_hold()
    ensures { BoundsAreWorked }
{}

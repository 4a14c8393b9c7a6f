//! Bounds of mixed logit, segment by segment and over all segments together, and the goals of the search for the assortment that
//! brings most in all of them.
#![tactic(auto)]

mod bounds;
mod caps;
mod follow;
mod greatest;
mod laws;
mod mixed_goal;
mod order;
mod prices;
mod sums;
mod tangent;
mod tangent_goal;
mod tops;

pub use bounds::Bounds;
pub use laws::worked_bounds_hold;
pub use mixed_goal::MixedGoal;
pub use tangent_goal::TangentGoal;

//! The best assortment of a problem by trial revenues, over any step that finds a feasible completion of greatest weight.
#![tactic(auto)]

mod best;
mod earnings;
mod ties;
mod trials;

pub use best::best_ratio;

//! Steps by tables and potentials: under a shelf, and under price ladders.
#![tactic(auto)]

mod ladder;
mod ladder_choice;
mod ladder_potentials;
mod ladder_rungs;
mod shelf;
mod shelf_parts;

pub use ladder::LadderStep;
pub use shelf::ShelfStep;

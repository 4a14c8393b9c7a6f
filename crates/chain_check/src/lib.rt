//! Checks certificates of Markov chains line by line.
#![tactic(auto)]

mod judge;
mod machine;
mod stages;
mod vectors;

pub use machine::ChainMachine;

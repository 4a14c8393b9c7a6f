//! Arcs files: from their bytes over a catalogue to a Markov chain.
#![tactic(auto)]

mod arc_columns;
mod arc_rows;
mod chains;
mod seen_arcs;

pub use arc_columns::{FROM, PARTS, TO};
pub use chains::read_chain;

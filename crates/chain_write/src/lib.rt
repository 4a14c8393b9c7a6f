//! The writer of a chain's certificate: the one text that says its stopping vectors.
#![tactic(auto)]

mod lines;
mod write;

pub use write::write_chain_proof;

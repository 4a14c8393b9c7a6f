//! Writers of certificates: each writes, of the best assortment of a problem, a text that is accepted.
#![tactic(auto)]

mod faults;
mod header;
mod leaves;
mod mixed;
mod mixed_rule;
mod output;
mod path_rule;
mod ratio;
mod search;
mod zero_rule;

pub use faults::ProofFault;
pub use mixed::write_mixed_proof;
pub use ratio::write_ratio_proof;
pub use search::write_search_proof;

//! Certificates: the grammar of their lines, what is accepted, and what acceptance implies.
#![tactic(auto)]

mod laws;
mod line;
mod numbers;
mod print;
mod read;

pub use laws::{
    accepted_chain_lines_are_short, accepted_is_best, accepted_is_bracketed,
    accepted_lines_are_short, chain_proofs_differ, chains_write_once, lines_differ,
    paths_are_short, proofs_differ, searches_write_once, worked_proofs,
};
pub use line::{Line, Shape};
pub use numbers::MOST_NUMBER;
pub use print::print_line;
pub use read::read_line;

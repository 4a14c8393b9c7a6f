//! All that the program does, from the words of the command line to the bytes that it writes.
#![tactic(auto)]

mod answer;
mod chain_inputs;
mod commands;
mod inputs;
mod lines;
mod means;
mod optimum;
mod output_file;
mod pieces;
mod solved;
mod stop;
mod subject;
mod task;
mod top;

pub use commands::check::MOST_PROOF;
pub use top::run;

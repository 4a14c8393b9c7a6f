//! The stopping vectors of Markov chains, and the assortment and bounds that they give.
#![tactic(auto)]

mod answer;
mod jump;
mod landing;
mod rule;
mod settle;
mod sweep;
mod vectors;

pub use answer::{ChainAnswer, solve_chain};

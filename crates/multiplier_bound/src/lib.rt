//! What limits other than ladders cost at given multipliers, and the bound that this gives at a node (Lagrange relaxation).
#![tactic(auto)]

mod multipliers;

pub use multipliers::{Multipliers, allowance, number_at, units};

//! Whether sweeps may go on from a vector that was guessed.
ghost use Rattle.std.specs.Prelude.{◌≡◌, ℕ, ◌*◌, ◌^◌, ◌<◌, ◌≤◌, length, slice_index, sum, IsTrue};
ghost use Rattle.offer_model.specs.Chains.{place_count};
ghost use Rattle.chain_values.specs.Sweeps.{IsReady, FallsBy};
ghost use Rattle.chain_moves.specs.Values.{AreSmall};
ghost use Rattle.chain_values.specs.Landings.{LandsAt};

use crate::rule::Rule;
use chain_moves::{Move, sum_moves};
use offer_model::Chain;

/// A value, in parts of the scale.
fn in_parts(scale: u64, value: u64) -> u64
    requires scale { scale ≤ 10000 }
    requires value { value ≤ 10 ^ 15 }
    ensures { result ≡ scale * value }
{
    scale * value
}

/// Whether sweeps may go on from this value of product `i`.
fn lands_at(chain: &Chain, rows: &[Vec<Move>], rule: &Rule, values: &[u64], i: usize) -> bool
    requires ready { IsReady chain.now rows.now rule.now }
    requires each { length values.now ≡ place_count chain.now }
    requires small { AreSmall values.now }
    requires place { i < place_count chain.now }
    ensures { IsTrue result → LandsAt chain.now rule.now (slice_index values.now) i }
{
    let value = values[i];
    if value == rule.most() {
        return true;
    }
    if value < rule.base(i) {
        return false;
    }
    if rule.holds(i) {
        return true;
    }
    let row = &rows[i];
    sum_moves(row, values) + rule.round() <= in_parts(chain.scale(), value)
}

/// Whether no number is above the other list's.
fn is_below(values: &[u64], bounds: &[u64]) -> bool
    requires { length values.now ≡ length bounds.now }
    ensures { IsTrue result → (i : ℕ) → i < length values.now → slice_index values.now i ≤ slice_index bounds.now i }
{
    for i in 0..values.len() {
        if values[i] > bounds[i] {
            return false;
        }
    }
    true
}

/// Whether sweeps may go on from this vector in place of the one that they have come to.
pub fn lands(chain: &Chain, rows: &[Vec<Move>], rule: &Rule, from: &[u64], values: &[u64]) -> bool
    requires ready { IsReady chain.now rows.now rule.now }
    requires from { FallsBy chain.now rule.now from.now }
    requires each { length values.now ≡ place_count chain.now }
    ensures falls { IsTrue result → FallsBy chain.now rule.now values.now }
    ensures less { IsTrue result → sum values.now ≤ sum from.now }
{
    if !is_below(values, from) {
        return false;
    }
    'products: for i in 0..values.len() {
        if !lands_at(chain, rows, rule, values, i) {
            return false;
        }
    }
    true
}

//! One sweep over the products of a chain, in place.
ghost use Rattle.std.specs.Prelude.{◌≡◌, ℕ, ◌+◌, ◌<◌, length, slice_index, sum};
ghost use Rattle.offer_model.specs.Chains.{place_count};
ghost use Rattle.chain_values.specs.Sweeps.{IsReady, next_value, FallsBy};
ghost use Rattle.chain_moves.specs.Values.{AreSmall};

use crate::rule::Rule;
use chain_moves::{Move, sum_moves};
use offer_model::Chain;

/// What the values of all make product `i`'s next value.
pub fn next_value(chain: &Chain, rows: &[Vec<Move>], rule: &Rule, values: &[u64], i: usize) -> u64
    requires ready { IsReady chain.now rows.now rule.now }
    requires each { length values.now ≡ place_count chain.now }
    requires small { AreSmall values.now }
    requires place { i < place_count chain.now }
    ensures { result ≡ next_value chain.now rule.now (slice_index values.now) i }
{
    let base = rule.base(i);
    if rule.holds(i) {
        return base;
    }
    let row = &rows[i];
    let moved = sum_moves(row, values);
    base.max((moved + rule.round()) / chain.scale())
}

/// Gives each product its next value, one after another: by how much the values fell in all.
pub fn sweep(chain: &Chain, rows: &[Vec<Move>], rule: &Rule, values: &mut [u64]) -> u64
    requires ready { IsReady chain.now rows.now rule.now }
    requires falls { FallsBy chain.now rule.now values.old }
    ensures falls { FallsBy chain.now rule.now values.new }
    ensures fallen { sum values.new + result ≡ sum values.old }
    ensures still { result ≡ 0 → (i : ℕ) → i < place_count chain.now → next_value chain.now rule.now (slice_index values.new) i ≡ slice_index values.new i }
{
    let mut fallen = 0;
    'products: for i in 0..values.len() {
        let after = next_value(chain, rows, rule, values, i);
        fallen += values[i] - after;
        values[i] = after;
    }
    fallen
}

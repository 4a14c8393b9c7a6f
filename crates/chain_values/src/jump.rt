//! Jumps: many steps at once, as many as look safe, taken only where they land.
ghost use Rattle.std.specs.Prelude.{◌≡◌, ℕ, ◌-◌, ◌<◌, ◌≤◌, length, slice_index, sum};
ghost use Rattle.offer_model.specs.Chains.{place_count};
ghost use Rattle.chain_values.specs.Sweeps.{IsReady, next_value, FallsBy};
ghost use Rattle.chain_moves.specs.Values.{AreSmall};

use crate::landing::lands;
use crate::rule::Rule;
use crate::sweep::next_value;
use chain_moves::{Move, sum_moves};
use offer_model::Chain;

/// By how much each value would fall in one step of all.
fn drops(chain: &Chain, rows: &[Vec<Move>], rule: &Rule, values: &[u64], guess: &mut [u64])
    requires ready { IsReady chain.now rows.now rule.now }
    requires each { length values.now ≡ place_count chain.now }
    requires small { AreSmall values.now }
    requires guess { length guess.old ≡ place_count chain.now }
    ensures value { (j : ℕ) → j < length guess.new → slice_index guess.new j ≡ slice_index values.now j - next_value chain.now rule.now (slice_index values.now) j }
    ensures small { AreSmall guess.new }
{
    'products: for i in 0..values.len() {
        let after = next_value(chain, rows, rule, values, i);
        guess[i] = values[i].saturating_sub(after);
    }
}

/// A quotient, the greatest number at 0.
fn quotient(a: u64, b: u64) -> u64 {
    if b == 0 { u64::MAX } else { a / b }
}

/// How many such steps product `i` seems to allow: while it isn't held, its moves and what the rule adds have to stay
/// within its value, which in turn has to stay above its base.
fn reach_at(
    chain: &Chain,
    rows: &[Vec<Move>],
    rule: &Rule,
    values: &[u64],
    drops: &[u64],
    i: usize,
) -> u64
    requires ready { IsReady chain.now rows.now rule.now }
    requires each { length values.now ≡ place_count chain.now }
    requires small { AreSmall values.now }
    requires drops_each { length drops.now ≡ place_count chain.now }
    requires drops_small { AreSmall drops.now }
    requires place { i < place_count chain.now }
{
    let drop = drops[i];
    let after = values[i].saturating_sub(drop);
    if rule.holds(i) || (drop == 0 && after == rule.most()) {
        return u64::MAX;
    }
    let row = &rows[i];
    let pulled = sum_moves(row, drops);
    let level = chain.scale().saturating_mul(after);
    let need = sum_moves(row, values)
        .saturating_sub(pulled)
        .saturating_add(rule.round());
    if level < need {
        return 0;
    }
    let slower = chain.scale().saturating_mul(drop).saturating_sub(pulled);
    let steps = quotient(level - need, slower);
    steps.min(quotient(after.saturating_sub(rule.base(i)), drop))
}

/// How many such steps all products seem to allow.
fn reach(chain: &Chain, rows: &[Vec<Move>], rule: &Rule, values: &[u64], drops: &[u64]) -> u64
    requires ready { IsReady chain.now rows.now rule.now }
    requires each { length values.now ≡ place_count chain.now }
    requires small { AreSmall values.now }
    requires drops_each { length drops.now ≡ place_count chain.now }
    requires drops_small { AreSmall drops.now }
{
    let mut steps = u64::MAX;
    'products: for i in 0..values.len() {
        steps = steps.min(reach_at(chain, rows, rule, values, drops, i));
    }
    if steps == u64::MAX { 0 } else { steps }
}

/// The vector so many steps further down.
fn further(values: &[u64], drops: &[u64], steps: u64, ahead: &mut [u64])
    requires drops { length values.now ≡ length drops.now }
    requires ahead { length values.now ≡ length ahead.old }
{
    for i in 0..values.len() {
        ahead[i] = values[i].saturating_sub(drops[i].saturating_mul(steps));
    }
}

/// Each value falls by its drop.
fn fall(values: &mut [u64], drops: &[u64])
    requires { length values.old ≡ length drops.now }
    ensures { (j : ℕ) → j < length values.new → slice_index values.new j ≡ slice_index values.old j - slice_index drops.now j }
{
    for i in 0..values.len() {
        values[i] = values[i].saturating_sub(drops[i]);
    }
}

/// One step of all values at once, or many where these land: how many more than one. `guess` and `ahead` are scratch.
pub fn jump(
    chain: &Chain,
    rows: &[Vec<Move>],
    rule: &Rule,
    values: &mut [u64],
    guess: &mut [u64],
    ahead: &mut [u64],
) -> u64
    requires ready { IsReady chain.now rows.now rule.now }
    requires falls { FallsBy chain.now rule.now values.old }
    requires guess { length guess.old ≡ place_count chain.now }
    requires ahead { length ahead.old ≡ place_count chain.now }
    ensures falls { FallsBy chain.now rule.now values.new }
    ensures less { sum values.new ≤ sum values.old }
{
    drops(chain, rows, rule, values, guess);
    let steps = reach(chain, rows, rule, values, guess);
    if steps > 0 {
        further(values, guess, steps.saturating_add(1), ahead);
        if lands(chain, rows, rule, values, ahead) {
            values.copy_from_slice(ahead);
            return steps;
        }
    }
    fall(values, guess);
    0
}

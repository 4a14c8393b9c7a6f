//! Whether the vectors of a certificate bound what customers bring.
ghost use Rattle.std.specs.Prelude.{◌≡◌, ℕ, ◌*◌, ◌^◌, ◌<◌, ◌≤◌, ◌↔◌, false, length, slice_index, IsTrue};
ghost use Rattle.offer_model.specs.Chains.{place_count, moved};
ghost use Rattle.offer_model.specs.Stopping.{value_bound};
ghost use Rattle.offer_model.specs.Brackets.{BoundsAbove, BoundsBelow};
ghost use Rattle.chain_moves.specs.Rows.{AreRows};
ghost use Rattle.chain_moves.specs.Values.{AreOwn, AreSmall};
ghost use Rattle.chain_check.specs.Vectors.{AreMost, IsAboveAt, IsBelowAt};

use chain_moves::{Move, sum_moves};
use offer_model::{Assortment, Chain, Wide};

/// A value, in parts of the scale.
fn in_parts(scale: u64, value: u64) -> u64
    requires scale { scale ≤ 10000 }
    requires value { value ≤ 10 ^ 15 }
    ensures { result ≡ scale * value }
{
    scale * value
}

/// Takes the numbers, where there is one for each product and none is above `most`.
pub(crate) fn take_values(numbers: &Wide, most: u64, values: &mut [u64]) -> bool
    ensures each { length values.new ≡ length values.old }
    ensures taken { IsTrue result → values.new ≡ numbers.now.items }
    ensures most { IsTrue result ↔ AreMost (length values.old) most numbers.now.items }
{
    if numbers.len() != values.len() {
        return false;
    }
    for i in 0..values.len() {
        let number = *numbers.get(i);
        if number > u128::from(most) {
            return false;
        }
        values[i] = number as u64;
    }
    true
}

/// Whether a move from the product brings no more than its value.
fn moves_within(chain: &Chain, rows: &[Vec<Move>], values: &[u64], i: usize) -> bool
    requires rows { AreRows chain.now rows.now }
    requires each { length values.now ≡ place_count chain.now }
    requires small { AreSmall values.now }
    requires place { i < place_count chain.now }
    ensures { IsTrue result ↔ (moved chain.now i (slice_index values.now) ≤ chain.now.scale * slice_index values.now i) }
{
    let most = in_parts(chain.scale(), values[i]);
    let row = &rows[i];
    sum_moves(row, values) <= most
}

/// Whether neither the product's own margin nor a move from it brings more than its value.
fn is_above(chain: &Chain, rows: &[Vec<Move>], own: &[u64], values: &[u64], i: usize) -> bool
    requires rows { AreRows chain.now rows.now }
    requires own { AreOwn chain.now own.now }
    requires each { length values.now ≡ place_count chain.now }
    requires small { AreSmall values.now }
    requires place { i < place_count chain.now }
    ensures { IsTrue result ↔ IsAboveAt chain.now values.now i }
{
    own[i] <= values[i] && moves_within(chain, rows, values, i)
}

/// Whether the values bound above what customers bring.
pub(crate) fn bounds_above(chain: &Chain, rows: &[Vec<Move>], own: &[u64], values: &[u64]) -> bool
    requires rows { AreRows chain.now rows.now }
    requires own { AreOwn chain.now own.now }
    requires each { length values.now ≡ place_count chain.now }
    requires small { AreSmall values.now }
    ensures { IsTrue result ↔ BoundsAbove chain.now values.now }
{
    for i in 0..values.len() {
        if !is_above(chain, rows, own, values, i) {
            return false;
        }
    }
    true
}

/// Whether the product's own margin brings its value where it is offered, and else a move from it.
fn is_below(
    chain: &Chain,
    rows: &[Vec<Move>],
    own: &[u64],
    set: &Assortment,
    values: &[u64],
    i: usize,
) -> bool
    requires rows { AreRows chain.now rows.now }
    requires own { AreOwn chain.now own.now }
    requires set { length set.now ≡ place_count chain.now }
    requires each { length values.now ≡ place_count chain.now }
    requires small { AreSmall values.now }
    requires place { i < place_count chain.now }
    ensures { IsTrue result ↔ IsBelowAt chain.now set.now values.now i }
{
    if set.offers(i) {
        return values[i] <= own[i];
    }
    let row = &rows[i];
    in_parts(chain.scale(), values[i]) <= sum_moves(row, values)
}

/// Whether the values bound below what customers bring with the assortment.
pub(crate) fn bounds_below(
    chain: &Chain,
    rows: &[Vec<Move>],
    own: &[u64],
    set: &Assortment,
    values: &[u64],
) -> bool
    requires rows { AreRows chain.now rows.now }
    requires own { AreOwn chain.now own.now }
    requires set { length set.now ≡ place_count chain.now }
    requires most { AreMost (place_count chain.now) (value_bound chain.now) values.now }
    requires small { AreSmall values.now }
    ensures { IsTrue result ↔ BoundsBelow chain.now set.now values.now }
{
    for i in 0..values.len() {
        if !is_below(chain, rows, own, set, values, i) {
            return false;
        }
    }
    true
}

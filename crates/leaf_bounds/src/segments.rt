//! The bound of segments, under mixed logit: a number for each, which no completion of the node brings more than there.
ghost use Rattle.std.specs.Prelude.{◌≡◌, ℕ, ◌*◌, ◌<◌, ◌≤◌, ◌^◌, ◌↔◌, length, slice_index, IsTrue};
ghost use Rattle.offer_model.specs.LeafBounds.{SegmentsFit, segments_bound};
ghost use Rattle.offer_model.specs.Prices.{prices_above, greatest_worth};
ghost use Rattle.offer_model.specs.Problems.{product_count, segment_at, attraction_of};
ghost use Rattle.offer_model.specs.Validity.{IsProblem};
ghost use Rattle.leaf_bounds.specs.Segments.{FitsSegment};

use crate::numbers::signed;
use linear_weights::{most_of, plus};
use offer_model::{Node, Problem, Wide, product_gain, share};

/// The greatest number of a segment: no assortment brings more in all of them.
const MOST_UNITS: u128 = 1_000_000_000_000_000_000;

/// The attraction of product `i` in segment `g`.
fn attraction(p: &Problem, g: usize, i: usize) -> u128
    requires segment { g < length p.now.segments }
    requires product { i < product_count p.now }
    ensures value { result ≡ attraction_of (segment_at p.now g) i }
    ensures bound { result ≤ 10 ^ 9 }
{
    u128::from(p.segments().get(g).attract(i))
}

/// The weight of buying nothing in segment `g`.
fn none(p: &Problem, g: usize) -> u128
    requires segment { g < length p.now.segments }
    ensures value { result ≡ (segment_at p.now g).none }
    ensures bound { result ≤ 10 ^ 9 }
{
    u128::from(p.segments().get(g).none())
}

/// What buying nothing costs above these units in segment `g`.
fn constant_above(p: &Problem, g: usize, units: u128) -> i128
    requires segment { g < length p.now.segments }
    requires units { units ≤ 10 ^ 18 }
    ensures value { result ≡ (prices_above p.now (segment_at p.now g) units).constant }
{
    0 - signed((units + 1) * none(p, g))
}

/// The price of product `i` above these units in segment `g`, whose size times unit is `share`.
fn price_above(p: &Problem, g: usize, i: usize, share: u128, units: u128) -> i128
    requires segment { g < length p.now.segments }
    requires product { i < product_count p.now }
    requires share { share ≡ (segment_at p.now g).size * p.now.unit }
    requires bound { share ≤ 10 ^ 9 }
    requires units { units ≤ 10 ^ 18 }
    ensures value { result ≡ (prices_above p.now (segment_at p.now g) units).price i }
{
    signed(share * product_gain(p, g, i)) - signed((units + 1) * attraction(p, g, i))
}

/// The greatest worth of a completion at the prices above these units in segment `g`, with limits left aside.
fn greatest_above(p: &Problem, g: usize, node: &Node, units: u128) -> i128
    requires segment { g < length p.now.segments }
    requires node { length node.now ≡ product_count p.now }
    requires units { units ≤ 10 ^ 18 }
    ensures { result ≡ greatest_worth p.now node.now (prices_above p.now (segment_at p.now g) units) }
{
    let share = share(p, g);
    let mut sum = constant_above(p, g, units);
    for i in 0..p.products().len() {
        let price = price_above(p, g, i, share, units);
        sum = plus(sum, most_of(node.mark(i), price));
    }
    sum
}

/// Whether the number is in its range, and no completion brings more in segment `g`.
fn fits_segment(p: &Problem, g: usize, node: &Node, units: u128) -> bool
    requires segment { g < length p.now.segments }
    requires node { length node.now ≡ product_count p.now }
    ensures { IsTrue result ↔ FitsSegment p.now node.now g units }
{
    units <= MOST_UNITS && greatest_above(p, g, node, units) < 0
}

/// Whether these may be the numbers of the segments at the node.
pub fn fit_segments(p: &Problem, node: &Node, numbers: &Wide) -> bool
    requires node { length node.now ≡ product_count p.now }
    ensures fits { IsTrue result ↔ SegmentsFit p.now node.now numbers.now.items }
    ensures valid { IsProblem p.now }
{
    if numbers.len() != p.segments().len() {
        return false;
    }
    for g in 0..numbers.len() {
        if !fits_segment(p, g, node, *numbers.get(g)) {
            return false;
        }
    }
    true
}

/// The sum of the numbers of segments.
pub fn sum_of_segments(numbers: &Wide) -> u128
    requires few { length numbers.now.items ≤ 32 }
    requires small { (k : ℕ) → k < length numbers.now.items → slice_index numbers.now.items k ≤ 10 ^ 18 }
    ensures { result ≡ segments_bound numbers.now.items }
{
    let mut total = 0u128;
    for k in 0..numbers.len() {
        total += *numbers.get(k);
    }
    total
}

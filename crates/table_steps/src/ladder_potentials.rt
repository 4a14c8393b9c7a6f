//! Potentials: of each product on a limited ladder what a chain that begins with it weighs at most.
ghost use Rattle.std.specs.Prelude.{◌≡◌, ◌↔◌, ℕ, ◌-◌, ◌*◌, ◌<◌, ◌≤◌, true, IsTrue, length, pos, ◌+ℤ◌, slice_index};
ghost use Rattle.offer_model.specs.Problems.{product_count};
ghost use Rattle.offer_model.specs.Prices.{positive_part};
ghost use Rattle.offer_model.specs.LeafBounds.{is_limited, IsUsable};
ghost use Rattle.linear_step.specs.Weights.{AreWeights, weight_at, price_bound};
ghost use Rattle.table_steps.specs.LadderRungs.{AreRungs};
ghost use Rattle.table_steps.specs.LadderFits.{AreLadders};
ghost use Rattle.table_steps.specs.LadderPotentials.{Follows, StandsBeside, IsGreatestAfter, IsPotential, HasRaised, ArePotentials};

use crate::ladder_rungs::Rungs;
use linear_step::Weights;
use offer_model::{Mark, Node, Problem, Product};

/// Whether the product may come next: the first, or the last before it has a lower grade and no higher price.
pub fn follows(last: Option<Product>, next: Product) -> bool
    ensures { IsTrue result ↔ Follows last next }
{
    match last {
        Some(last) => last.grade < next.grade && last.price <= next.price,
        None => true,
    }
}

/// The greatest number of a listed product, from place `from` on, that follows; 0 without one.
pub fn greatest_after(
    p: &Problem,
    numbers: &[u128],
    list: &[usize],
    last: Option<Product>,
    from: usize,
) -> u128
    requires numbers { length numbers.now ≡ product_count p.now }
    requires inside { (q : ℕ) → q < length list.now → slice_index list.now q < product_count p.now }
    requires from { from ≤ length list.now }
    ensures { IsGreatestAfter p.now numbers.now list.now last from (length list.now) result }
{
    let mut greatest = 0;
    for q in from..list.len() {
        let product = list[q];
        if numbers[product] > greatest && follows(last, *p.products().get(product)) {
            greatest = numbers[product];
        }
    }
    greatest
}

/// Whether product `i` may be offered beside each listed product that is In.
fn stands_beside(p: &Problem, node: &Node, list: &[usize], i: usize) -> bool
    requires node { length node.now ≡ product_count p.now }
    requires inside { (q : ℕ) → q < length list.now → slice_index list.now q < product_count p.now }
    requires product { i < product_count p.now }
    ensures { IsTrue result ↔ StandsBeside p.now node.now list.now i }
{
    let product = *p.products().get(i);
    for j in list {
        let other = *p.products().get(*j);
        if node.mark(*j) == Mark::In
            && !follows(Some(product), other)
            && !follows(Some(other), product)
        {
            return false;
        }
    }
    true
}

/// Whether the product at place `k` of a limited ladder is Open and may be offered beside what is In.
fn is_usable(p: &Problem, node: &Node, rungs: &Rungs, k: usize) -> bool
    requires node { length node.now ≡ product_count p.now }
    requires rungs { AreRungs p.now rungs.now }
    requires limited { is_limited p.now.limits rungs.now.ladder ≡ true }
    requires place { k < length rungs.now.products }
    ensures { IsTrue result ↔ IsUsable p.now node.now (slice_index rungs.now.products k) }
{
    let i = rungs.products()[k];
    node.mark(i) == Mark::Open && stands_beside(p, node, rungs.products(), i)
}

fn positive(z: i128) -> u128
    ensures { pos result ≡ positive_part z }
{
    if z > 0 { z as u128 } else { 0 }
}

/// The potential of the product at place `k`, where those at higher places have theirs.
fn potential(
    p: &Problem,
    weights: &Weights,
    node: &Node,
    rungs: &Rungs,
    numbers: &[u128],
    k: usize,
) -> u128
    requires weights { AreWeights p.now weights.now }
    requires node { length node.now ≡ product_count p.now }
    requires rungs { AreRungs p.now rungs.now }
    requires limited { is_limited p.now.limits rungs.now.ladder ≡ true }
    requires numbers { length numbers.now ≡ product_count p.now }
    requires place { k < length rungs.now.products }
    requires small { (q : ℕ) → k < q → q < length rungs.now.products
        → slice_index numbers.now (slice_index rungs.now.products q) ≤ (length rungs.now.products - k - 1) * price_bound }
    ensures value { IsPotential p.now node.now (weight_at weights.now) numbers.now (slice_index rungs.now.products k) result }
    ensures small { result ≤ (length rungs.now.products - k) * price_bound }
{
    if !is_usable(p, node, rungs, k) {
        return 0;
    }
    let list = rungs.products();
    let i = list[k];
    let product = *p.products().get(i);
    let above = greatest_after(p, numbers, list, Some(product), k + 1);
    positive(weights.get(i) + above as i128)
}

/// Gives the products of one ladder their potentials, from the highest grade down.
fn raise(p: &Problem, weights: &Weights, node: &Node, rungs: &Rungs, numbers: &mut [u128])
    requires weights { AreWeights p.now weights.now }
    requires node { length node.now ≡ product_count p.now }
    requires rungs { AreRungs p.now rungs.now }
    requires limited { is_limited p.now.limits rungs.now.ladder ≡ true }
    requires numbers { length numbers.old ≡ product_count p.now }
    ensures { HasRaised p.now node.now (weight_at weights.now) rungs.now.ladder numbers.old numbers.new }
{
    let list = rungs.products();
    for k in (0..list.len()).rev() {
        numbers[list[k]] = potential(p, weights, node, rungs, numbers, k);
    }
}

/// The potential of each product.
pub fn raise_all(
    p: &Problem,
    weights: &Weights,
    node: &Node,
    ladders: &[Rungs],
    numbers: &mut [u128],
)
    requires weights { AreWeights p.now weights.now }
    requires node { length node.now ≡ product_count p.now }
    requires ladders { AreLadders p.now ladders.now }
    requires numbers { length numbers.old ≡ product_count p.now }
    ensures { ArePotentials p.now node.now (weight_at weights.now) numbers.new }
{
    numbers.fill(0);
    for k in 0..ladders.len() {
        raise(p, weights, node, &ladders[k], numbers);
    }
}

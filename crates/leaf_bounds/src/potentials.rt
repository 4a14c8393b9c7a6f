//! Potentials of ladders: whether a leaf's numbers may be the potentials at its node, and their bound.
ghost use Rattle.std.specs.Prelude.{◌≡◌, ℕ, List, ◌∷◌, ◌+◌, ◌*◌, ◌<◌, ◌≤◌, ◌^◌, ◌↔◌, length, IfOk, IsTrue};
ghost use Rattle.offer_model.specs.Assortments.{offers};
ghost use Rattle.offer_model.specs.Problems.{product_count};
ghost use Rattle.offer_model.specs.Limits.{MayStand};
ghost use Rattle.offer_model.specs.LeafBounds.{is_limited, IsUsable, Rises, PotentialsFit, ladder_top, ladder_tops, most_beside, potentials_bound};
ghost use Rattle.proof_lines.specs.Lines.{AreNumbers};
ghost use Rattle.linear_step.specs.Weights.{weight_at, prices_of, IsWithin, AreWeights};
ghost use Rattle.leaf_bounds.specs.Potentials.{AreLimited, AreUsable, IsBeside, FitsBeside, IsRise, Covers, CoversRises, IsPotential, worth_beside};
ghost use Rattle.leaf_bounds.specs.LadderLists.{IsLadderOf};
ghost use Rattle.leaf_bounds.specs.Kept.{AreLaddersOf, HasSets};

use crate::ladders::Ladders;
use crate::numbers::signed;
use limit_rules::may_stand;
use linear_step::Weights;
use linear_weights::plus;
use multiplier_bound::number_at;
use offer_model::{Assortment, Limit, Mark, NoMemory, Node, Problem, Product, Wide};
use std::alloc::Global;

/// Two sets of products, those on a ladder that has a limit, and those that a leaf's potentials speak of; and the products of
/// each ladder.
#[derive(Drop)]
pub struct Potentials {
    ladders: Ladders,
    limited: Assortment,
    usable: Assortment,
}

fn limits_ladder(limit: Limit, ladder: u32) -> bool
    ensures { IsTrue result ↔ (limit ≡ Limit.Ladder ladder) }
{
    matches!(limit, Limit::Ladder(limited) if limited == ladder)
}

/// Whether the ladder has a limit.
fn is_limited(p: &Problem, ladder: u32) -> bool
    ensures { result ≡ is_limited p.now.limits ladder }
{
    for k in 0..p.limits().len() {
        if limits_ladder(*p.limits().get(k), ladder) {
            return true;
        }
    }
    false
}

/// Finds the products on ladders that have a limit.
fn find_limited(p: &Problem, limited: &mut Assortment)
    requires { length limited.old ≡ product_count p.now }
    ensures { AreLimited p.now limited.new }
{
    for i in 0..limited.len() {
        limited.set(i, is_limited(p, p.products().get(i).ladder));
    }
}

/// Whether the two products may be offered together.
fn stand_together(a: &Product, b: &Product) -> bool
    ensures { IsTrue result ↔ MayStand a.now b.now × MayStand b.now a.now }
{
    may_stand(a, b) && may_stand(b, a)
}

/// Whether product `j` is In, and on the ladder of product `i`.
fn is_beside(p: &Problem, node: &Node, i: usize, j: usize) -> bool
    requires node { length node.now ≡ product_count p.now }
    requires first { i < product_count p.now }
    requires second { j < product_count p.now }
    ensures { IsTrue result ↔ IsBeside p.now node.now i j }
{
    node.mark(j) == Mark::In && p.products().get(j).ladder == p.products().get(i).ladder
}

/// Whether product `i` may be offered together with each product of its ladder that is In.
fn fits_beside(p: &Problem, node: &Node, i: usize, ladder: &[usize]) -> bool
    requires node { length node.now ≡ product_count p.now }
    requires product { i < product_count p.now }
    requires ladder { IsLadderOf p.now i ladder.now }
    ensures { IsTrue result ↔ FitsBeside p.now node.now i }
{
    let product = p.products().get(i);
    for j in ladder {
        if is_beside(p, node, i, *j) && !stand_together(product, p.products().get(*j)) {
            return false;
        }
    }
    true
}

/// Whether product `i` is Open, on a limited ladder, and may stand together with what is In.
fn is_usable(p: &Problem, ladders: &Ladders, limited: &Assortment, node: &Node, i: usize) -> bool
    requires ladders { AreLaddersOf p.now ladders.now }
    requires limited { AreLimited p.now limited.now }
    requires node { length node.now ≡ product_count p.now }
    requires product { i < product_count p.now }
    ensures { IsTrue result ↔ IsUsable p.now node.now i }
{
    node.mark(i) == Mark::Open && limited.offers(i) && fits_beside(p, node, i, ladders.of(p, i))
}

/// Finds the products that are usable at the node.
fn find_usable(
    p: &Problem,
    ladders: &Ladders,
    limited: &Assortment,
    node: &Node,
    usable: &mut Assortment,
)
    requires ladders { AreLaddersOf p.now ladders.now }
    requires limited { AreLimited p.now limited.now }
    requires node { length node.now ≡ product_count p.now }
    requires usable { length usable.old ≡ product_count p.now }
    ensures { AreUsable p.now node.now usable.new }
{
    for i in 0..node.len() {
        usable.set(i, is_usable(p, ladders, limited, node, i));
    }
}

/// Whether the products are of one ladder, and from the first to the second the grade rises and the price doesn't fall.
fn rises(a: &Product, b: &Product) -> bool
    ensures { IsTrue result ↔ (a.now.ladder ≡ b.now.ladder) × Rises a.now b.now }
{
    a.ladder == b.ladder && a.grade < b.grade && a.price <= b.price
}

/// Whether product `j` is usable, and product `i` rises to it.
fn is_rise(p: &Problem, usable: &Assortment, i: usize, j: usize) -> bool
    requires usable { length usable.now ≡ product_count p.now }
    requires first { i < product_count p.now }
    requires second { j < product_count p.now }
    ensures { IsTrue result ↔ IsRise p.now usable.now i j }
{
    usable.offers(j) && rises(p.products().get(i), p.products().get(j))
}

/// Whether the number of product `i` covers its price and the number of product `j`.
fn covers(weights: &Weights, numbers: &Wide, i: usize, j: usize) -> bool
    requires small { IsWithin (2 ^ 98) (weight_at weights.now i) }
    requires first { i < length weights.now.items }
    requires both { length weights.now.items ≡ length numbers.now.items }
    requires second { j < length numbers.now.items }
    requires numbers { AreNumbers numbers.now.items }
    ensures { IsTrue result ↔ Covers (weight_at weights.now) numbers.now.items i j }
{
    let needed = plus(weights.get(i), signed(number_at(numbers, j)));
    needed <= signed(number_at(numbers, i))
}

/// Whether the number of product `i` covers its price and the number of each usable product that it rises to.
fn covers_rises(
    p: &Problem,
    weights: &Weights,
    usable: &Assortment,
    numbers: &Wide,
    i: usize,
    ladder: &[usize],
) -> bool
    requires weights { AreWeights p.now weights.now }
    requires usable { length usable.now ≡ product_count p.now }
    requires each { length numbers.now.items ≡ product_count p.now }
    requires numbers { AreNumbers numbers.now.items }
    requires product { i < product_count p.now }
    requires ladder { IsLadderOf p.now i ladder.now }
    ensures { IsTrue result ↔ CoversRises p.now (weight_at weights.now) usable.now numbers.now.items i }
{
    for j in ladder {
        if is_rise(p, usable, i, *j) && !covers(weights, numbers, i, *j) {
            return false;
        }
    }
    true
}

/// Whether the number of product `i` may be its potential.
fn is_potential(
    p: &Problem,
    ladders: &Ladders,
    weights: &Weights,
    usable: &Assortment,
    numbers: &Wide,
    i: usize,
) -> bool
    requires ladders { AreLaddersOf p.now ladders.now }
    requires weights { AreWeights p.now weights.now }
    requires usable { length usable.now ≡ product_count p.now }
    requires each { length numbers.now.items ≡ product_count p.now }
    requires numbers { AreNumbers numbers.now.items }
    requires product { i < product_count p.now }
    ensures { IsTrue result ↔ IsPotential p.now (weight_at weights.now) usable.now numbers.now.items i }
{
    let number = number_at(numbers, i);
    if usable.offers(i) {
        weights.get(i) <= signed(number)
            && covers_rises(p, weights, usable, numbers, i, ladders.of(p, i))
    } else {
        number == 0
    }
}

/// Whether these may be the potentials, one for each product.
fn are_potentials(
    p: &Problem,
    ladders: &Ladders,
    weights: &Weights,
    usable: &Assortment,
    numbers: &Wide,
) -> bool
    requires ladders { AreLaddersOf p.now ladders.now }
    requires weights { AreWeights p.now weights.now }
    requires usable { length usable.now ≡ product_count p.now }
    requires each { length numbers.now.items ≡ product_count p.now }
    requires numbers { AreNumbers numbers.now.items }
    ensures { IsTrue result ↔ ((i : ℕ) → i < product_count p.now
        → IsPotential p.now (weight_at weights.now) usable.now numbers.now.items i) }
{
    for i in 0..numbers.len() {
        if !is_potential(p, ladders, weights, usable, numbers, i) {
            return false;
        }
    }
    true
}

/// What a product adds at most beside the tops of the ladders.
fn most_beside(mark: Mark, limited: bool, price: i128) -> i128
    requires { IsWithin (2 ^ 110) price }
    ensures value { result ≡ most_beside mark limited price }
    ensures small { IsWithin (2 ^ 110) result }
{
    match mark {
        Mark::In => price,
        Mark::Out => 0,
        Mark::Open => if price > 0 && !limited { price } else { 0 },
    }
}

/// The constant, and what products add at most beside the tops of the ladders.
fn worth_beside(p: &Problem, limited: &Assortment, weights: &Weights, node: &Node) -> i128
    requires limited { AreLimited p.now limited.now }
    requires weights { AreWeights p.now weights.now }
    requires node { length node.now ≡ product_count p.now }
    ensures value { result ≡ worth_beside p.now node.now (prices_of weights.now) (product_count p.now) }
    ensures small { IsWithin (2 ^ 119) result }
{
    let mut sum = weights.constant();
    for i in 0..p.products().len() {
        sum = plus(
            sum,
            most_beside(node.mark(i), limited.offers(i), weights.get(i)),
        );
    }
    sum
}

/// The greatest number of a product of the ladder, 0 without one.
fn ladder_top(p: &Problem, numbers: &Wide, ladder: u32) -> u128
    requires each { length numbers.now.items ≡ product_count p.now }
    requires numbers { AreNumbers numbers.now.items }
    ensures value { result ≡ ladder_top p.now numbers.now.items ladder (product_count p.now) }
    ensures bound { result ≤ 2 ^ 108 }
{
    let mut top = 0u128;
    for i in 0..numbers.len() {
        if p.products().get(i).ladder == ladder {
            top = top.max(number_at(numbers, i));
        }
    }
    top
}

/// The top of the ladder that the limit is of, 0 of other limits.
fn top_under(p: &Problem, numbers: &Wide, limit: Limit) -> u128
    requires each { length numbers.now.items ≡ product_count p.now }
    requires numbers { AreNumbers numbers.now.items }
    ensures value { (rest : List Limit) → ladder_tops p.now numbers.now.items (limit ∷ rest)
        ≡ result + ladder_tops p.now numbers.now.items rest }
    ensures bound { result ≤ 2 ^ 108 }
{
    match limit {
        Limit::Ladder(ladder) => ladder_top(p, numbers, ladder),
        Limit::Total(_) | Limit::Category(_, _) | Limit::Requires(_, _) | Limit::Shelf(_) => 0,
    }
}

/// The tops of all ladders that have a limit.
fn ladder_tops(p: &Problem, numbers: &Wide) -> u128
    requires each { length numbers.now.items ≡ product_count p.now }
    requires numbers { AreNumbers numbers.now.items }
    ensures value { result ≡ ladder_tops p.now numbers.now.items p.now.limits }
    ensures bound { result ≤ 2 ^ 118 }
{
    let mut sum = 0u128;
    for k in 0..p.limits().len() {
        sum += top_under(p, numbers, *p.limits().get(k));
    }
    sum
}

impl Potentials {
    /// Room for leaves of the problem.
    pub fn new(alloc: Global, p: &Problem) -> Result<Potentials, NoMemory>
        ensures { IfOk result (λ s. HasSets p.now s) }
    {
        let count = p.products().len();
        let mut limited = Assortment::empty(alloc, count)?;
        find_limited(p, &mut limited);
        Ok(Potentials {
            ladders: Ladders::new(alloc, p)?,
            limited,
            usable: Assortment::empty(alloc, count)?,
        })
    }

    /// Whether these may be the potentials at the node.
    pub fn fit(&mut self, p: &Problem, weights: &Weights, node: &Node, numbers: &Wide) -> bool
        requires sets { HasSets p.now self.old }
        requires numbers { AreNumbers numbers.now.items }
        requires weights { AreWeights p.now weights.now }
        requires node { length node.now ≡ product_count p.now }
        ensures value { IsTrue result ↔ PotentialsFit p.now node.now (weight_at weights.now) numbers.now.items }
        ensures sets { HasSets p.now self.new }
    {
        if numbers.len() != node.len() {
            return false;
        }
        find_usable(p, &self.ladders, &self.limited, node, &mut self.usable);
        are_potentials(p, &self.ladders, weights, &self.usable, numbers)
    }

    /// The bound of these potentials at the node.
    pub fn bound(&self, p: &Problem, weights: &Weights, node: &Node, numbers: &Wide) -> i128
        requires sets { HasSets p.now self.now }
        requires each { length numbers.now.items ≡ product_count p.now }
        requires numbers { AreNumbers numbers.now.items }
        requires weights { AreWeights p.now weights.now }
        requires node { length node.now ≡ product_count p.now }
        ensures { result ≡ potentials_bound p.now node.now numbers.now.items (prices_of weights.now) }
    {
        let beside = worth_beside(p, &self.limited, weights, node);
        plus(beside, signed(ladder_tops(p, numbers)))
    }
}

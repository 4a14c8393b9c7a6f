//! Multipliers of limits, the prices that they make of weights, and their bound.
ghost use Rattle.std.specs.Prelude.{◌≡◌, ℕ, ◌+◌, ◌*◌, ◌<◌, ◌≤◌, ◌^◌, ◌↔◌, ◌==◌, cond, false, length, pos, ◌+ℤ◌, ◌-ℤ◌, slice_index, slice_index_or, IfOk, IsTrue};
ghost use Rattle.std.specs.List.{filter};
ghost use Rattle.offer_model.specs.Problems.{product_count};
ghost use Rattle.offer_model.specs.Validity.{IsInRange, NamesExisting, is_requires};
ghost use Rattle.offer_model.specs.LeafBounds.{is_priced, priced_limits, taken_by, allowed_by, IsMultiplier, MultipliersFit, multipliers_bound};
ghost use Rattle.linear_weights.specs.Weights.{IsWithin, AreWeights, weight_at, prices_of};
ghost use Rattle.multiplier_bound.specs.Pricing.{IsMoved, AreRelaxed};
ghost use Rattle.multiplier_bound.specs.Fits.{HasLists, AreNumbers, AreFit, IsRelaxed};

use limit_rules::is_priced;
use linear_weights::Weights;
use offer_model::{Limit, Limits, NoMemory, Node, Problem, Wide};
use std::alloc::Global;
use std::marker::Model;

/// The greatest multiplier of a cap or a shelf, 2^100.
const MOST_MULTIPLIER: u128 = 1_267_650_600_228_229_401_496_703_205_376;

/// The limits of a problem that have a multiplier, which are all but ladders, in file order, and room for the prices under
/// multipliers.
#[derive(Drop)]
pub struct Multipliers {
    priced: Limits,
    changed: Weights,
}

impl Model for Multipliers {
    ghost use Rattle.std.specs.Prelude.{length};
    ghost use Rattle.multiplier_bound.specs.Fits.{MultipliersData};

    ghost Value = { MultipliersData };

    ghost view = { λ s. record { priced = s.priced.items; products = length s.changed.items } };
}

/// The number at a place, counted from 0.
pub fn number_at(numbers: &Wide, i: usize) -> u128
    requires place { i < length numbers.now.items }
    requires numbers { AreNumbers numbers.now.items }
    ensures value { result ≡ slice_index numbers.now.items i }
    ensures bound { result ≤ 2 ^ 108 }
{
    *numbers.get(i)
}

/// The limits that have a multiplier, in file order.
fn copy_priced(alloc: Global, limits: &Limits) -> Result<Limits, NoMemory>
    ensures { IfOk result (λ priced. priced.items ≡ filter is_priced limits.now.items) }
{
    let mut priced = Limits::new(alloc);
    priced.reserve(limits.len())?;
    for k in 0..limits.len() {
        let limit = *limits.get(k);
        if is_priced(limit) {
            priced.push(limit);
        }
    }
    Ok(priced)
}

/// Whether the number may be the limit's multiplier.
fn is_multiplier(limit: Limit, number: u128) -> bool
    ensures { IsTrue result ↔ IsMultiplier limit number }
{
    match limit {
        Limit::Total(_) | Limit::Category(_, _) | Limit::Shelf(_) => number <= MOST_MULTIPLIER,
        Limit::Requires(_, _) => true,
        Limit::Ladder(_) => false,
    }
}

/// What a cap or a shelf counts of product `i`.
pub fn units(p: &Problem, limit: Limit, i: usize) -> u128
    requires { i < product_count p.now }
    ensures value { (u : ℕ) → is_requires limit ≡ false → taken_by p.now limit u i ≡ u * result }
    ensures bound { result ≤ 1000 }
{
    let product = p.products().get(i);
    match limit {
        Limit::Total(_) => 1,
        Limit::Category(category, _) => u128::from(product.category == category),
        Limit::Shelf(_) => u128::from(product.space),
        Limit::Requires(_, _) | Limit::Ladder(_) => 0,
    }
}

/// How many units a cap or a shelf allows.
pub fn allowance(limit: Limit) -> u128
    requires { IsInRange limit }
    ensures value { (u : ℕ) → allowed_by limit u ≡ u * result }
    ensures bound { result ≤ 1000 }
{
    match limit {
        Limit::Total(cap) => u128::from(cap),
        Limit::Category(_, cap) => u128::from(cap),
        Limit::Shelf(space) => u128::from(space),
        Limit::Requires(_, _) | Limit::Ladder(_) => 0,
    }
}

fn more(price: i128, amount: u128) -> i128
    requires price { IsWithin (2 ^ 123) price }
    requires amount { amount ≤ 2 ^ 110 }
    ensures { result ≡ price +ℤ pos amount }
{
    price + amount as i128
}

fn less(price: i128, amount: u128) -> i128
    requires price { IsWithin (2 ^ 123) price }
    requires amount { amount ≤ 2 ^ 110 }
    ensures { result ≡ price -ℤ pos amount }
{
    price - amount as i128
}

/// Takes `u` off each product's price for each unit that a cap or a shelf counts of it.
fn take_units(p: &Problem, limit: Limit, u: u128, each: &mut Weights)
    requires limit { is_requires limit ≡ false }
    requires u { u ≤ 2 ^ 100 }
    requires each { length each.old.items ≡ product_count p.now }
    requires small { (i : ℕ) → i < product_count p.now
        → IsWithin (2 ^ 122) (weight_at each.old i) }
    ensures constant { each.new.constant ≡ each.old.constant }
    ensures each { length each.new.items ≡ product_count p.now }
    ensures price { (i : ℕ) → i < product_count p.now → weight_at each.new i
        ≡ weight_at each.old i -ℤ pos (taken_by p.now limit u i) }
{
    for i in 0..each.len() {
        each.set(i, less(each.get(i), u * units(p, limit, i)));
    }
}

/// Takes `u` off the price of product `a`.
fn lower(a: usize, u: u128, each: &mut Weights)
    requires a { a < length each.old.items }
    requires u { u ≤ 2 ^ 108 }
    requires small { IsWithin (2 ^ 122) (weight_at each.old a) }
    ensures constant { each.new.constant ≡ each.old.constant }
    ensures each { length each.new.items ≡ length each.old.items }
    ensures price { (i : ℕ) → i < length each.old.items → weight_at each.new i
        ≡ weight_at each.old i -ℤ pos (cond (i == a) u 0) }
{
    each.set(a, less(each.get(a), u));
}

/// Adds `u` to the price of product `b`.
fn raise(b: usize, u: u128, each: &mut Weights)
    requires b { b < length each.old.items }
    requires u { u ≤ 2 ^ 108 }
    requires small { IsWithin (2 ^ 123) (weight_at each.old b) }
    ensures constant { each.new.constant ≡ each.old.constant }
    ensures each { length each.new.items ≡ length each.old.items }
    ensures price { (i : ℕ) → i < length each.old.items → weight_at each.new i
        ≡ weight_at each.old i +ℤ pos (cond (i == b) u 0) }
{
    each.set(b, more(each.get(b), u));
}

/// Takes `u` off the price of product `a` and adds it to that of product `b`.
fn shift(a: usize, b: usize, u: u128, each: &mut Weights)
    requires a { a < length each.old.items }
    requires b { b < length each.old.items }
    requires u { u ≤ 2 ^ 108 }
    requires small { (i : ℕ) → i < length each.old.items
        → IsWithin (2 ^ 122) (weight_at each.old i) }
    ensures constant { each.new.constant ≡ each.old.constant }
    ensures each { length each.new.items ≡ length each.old.items }
    ensures price { (i : ℕ) → i < length each.old.items → weight_at each.new i
        ≡ (weight_at each.old i +ℤ pos (cond (i == b) u 0)) -ℤ pos (cond (i == a) u 0) }
{
    lower(a, u, each);
    raise(b, u, each);
}

/// Moves the prices and the constant by a limit's multiplier.
fn move_by(p: &Problem, limit: Limit, u: u128, list: &mut Weights)
    requires named { NamesExisting p.now limit }
    requires range { IsInRange limit }
    requires fits { IsMultiplier limit u }
    requires number { u ≤ 2 ^ 108 }
    requires each { length list.old.items ≡ product_count p.now }
    requires small { (i : ℕ) → i < product_count p.now → IsWithin (2 ^ 122) (weight_at list.old i) }
    requires constant { IsWithin (2 ^ 122) list.old.constant }
    ensures { IsMoved p.now limit u (prices_of list.old) list.new }
{
    if let Limit::Requires(a, b) = limit {
        shift(a, b, u, list);
    } else {
        take_units(p, limit, u, list);
        list.set_constant(more(list.constant(), u * allowance(limit)));
    }
}

/// Becomes the weights as all multipliers move them.
fn move_by_all(p: &Problem, priced: &Limits, numbers: &Wide, weights: &Weights, list: &mut Weights)
    requires priced { priced.now.items ≡ priced_limits p.now }
    requires fit { AreFit p.now numbers.now.items }
    requires weights { AreWeights p.now weights.now }
    requires each { length list.old.items ≡ product_count p.now }
    ensures { AreRelaxed p.now numbers.now.items (prices_of weights.now) list.new (length numbers.now.items) }
{
    list.copy_from(weights);
    for k in 0..numbers.len() {
        move_by(p, *priced.get(k), number_at(numbers, k), list);
    }
}

impl Multipliers {
    /// The limits of the problem that have a multiplier.
    pub fn new(alloc: Global, p: &Problem) -> Result<Multipliers, NoMemory>
        ensures { IfOk result (λ s. HasLists p.now s) }
    {
        let priced = copy_priced(alloc, p.limits())?;
        let changed = Weights::new(alloc, p.products().len())?;
        Ok(Multipliers { priced, changed })
    }

    /// The limits that have a multiplier, in file order.
    pub fn priced(&self) -> &Limits
        ensures { result.now.items ≡ self.now.priced }
    {
        &self.priced
    }

    /// Whether these may be the multipliers: one for each limit that isn't a ladder, none too great.
    pub fn fit(&self, p: &Problem, numbers: &Wide) -> bool
        requires { HasLists p.now self.now }
        ensures { IsTrue result ↔ MultipliersFit p.now numbers.now.items }
    {
        if numbers.len() != self.priced.len() {
            return false;
        }
        for k in 0..numbers.len() {
            if !is_multiplier(*self.priced.get(k), *numbers.get(k)) {
                return false;
            }
        }
        true
    }

    /// The list becomes the prices that these multipliers make of the weights.
    pub fn relax(&self, p: &Problem, weights: &Weights, numbers: &Wide, list: &mut Weights)
        requires lists { HasLists p.now self.now }
        requires fit { AreFit p.now numbers.now.items }
        requires weights { AreWeights p.now weights.now }
        requires each { length list.old.items ≡ product_count p.now }
        ensures { IsRelaxed p.now numbers.now.items (prices_of weights.now) list.new }
    {
        move_by_all(p, &self.priced, numbers, weights, list);
    }

    /// The bound of these multipliers at the node: no feasible completion of it weighs more.
    pub fn bound(&mut self, p: &Problem, weights: &Weights, node: &Node, numbers: &Wide) -> i128
        requires lists { HasLists p.now self.old }
        requires fit { AreFit p.now numbers.now.items }
        requires weights { AreWeights p.now weights.now }
        requires node { length node.now ≡ product_count p.now }
        ensures value { result ≡ multipliers_bound p.now node.now numbers.now.items (prices_of weights.now) }
        ensures lists { HasLists p.now self.new }
    {
        move_by_all(p, &self.priced, numbers, weights, &mut self.changed);
        self.changed.greatest(p, node)
    }
}

//! The bound of a shelf where the settled products come first, by a table that is kept from leaf to leaf.
ghost use Rattle.std.specs.Prelude.{◌≡◌, ℕ, ◌<◌, ◌≤◌, ◌^◌, ◌↔◌, false, length, cond, pos, IfOk, IfSome, IsTrue};
ghost use Rattle.offer_model.specs.declared.node.Mark.TheVariants.{Open};
ghost use Rattle.offer_model.specs.Problems.{product_count};
ghost use Rattle.offer_model.specs.Nodes.{mark_at, is_in, fill_of, IsSettledTo};
ghost use Rattle.offer_model.specs.Prices.{worth_of};
ghost use Rattle.offer_model.specs.LeafBounds.{shelf_space, shelf_bound};
ghost use Rattle.linear_step.specs.Weights.{weight_at, prices_of, IsWithin, AreWeights};
ghost use Rattle.shelf_table.specs.Tables.{space_of, price_in, IsTableOf};
ghost use Rattle.leaf_bounds.specs.Kept.{space_for, HasTable};

use crate::shelf::shelf;
use linear_step::Weights;
use linear_weights::plus;
use offer_model::{MOST_COUNT, Mark, NoMemory, Node, Problem};
use shelf_table::{ShelfTable, first_open, room_left, spaces_of};
use std::alloc::Global;

/// The table over products and space, kept as long as the prices stay the same. It serves nodes whose first products are
/// settled and whose others are Open. Without a shelf it has no space.
#[derive(Drop)]
pub struct KeptTable {
    spaces: Vec<usize>,
    prices: Vec<i128>,
    table: ShelfTable,
    filled: bool,
}

/// Whether all products from `k` on are Open.
fn all_open(node: &Node, k: usize) -> bool
    ensures { IsTrue result ↔ ((i : ℕ) → k ≤ i → i < length node.now → mark_at node.now i ≡ Open) }
{
    for i in k..node.len() {
        if node.mark(i) != Mark::Open {
            return false;
        }
    }
    true
}

/// The number of settled products, where they come first.
pub fn settled_first(node: &Node) -> Option<usize>
    ensures { IfSome result (λ k. IsSettledTo k node.now) }
{
    let k = first_open(node);
    if all_open(node, k) { Some(k) } else { None }
}

/// The price of a product that is In, 0 of others.
fn price_if_in(mark: Mark, price: i128) -> i128
    requires { IsWithin (2 ^ 98) price }
    ensures value { result ≡ cond (is_in mark) price (pos 0) }
    ensures small { IsWithin (2 ^ 98) result }
{
    match mark {
        Mark::In => price,
        Mark::Out | Mark::Open => 0,
    }
}

/// The constant, and the weights of what is In.
fn worth_in(p: &Problem, weights: &Weights, node: &Node) -> i128
    requires weights { AreWeights p.now weights.now }
    requires node { length node.now ≡ product_count p.now }
    ensures { result ≡ worth_of p.now (prices_of weights.now) (fill_of node.now) }
{
    let mut sum = weights.constant();
    for i in 0..p.products().len() {
        sum = plus(sum, price_if_in(node.mark(i), weights.get(i)));
    }
    sum
}

/// Takes over the weights as prices. Whether one of them has changed.
fn take_prices(weights: &Weights, prices: &mut Vec<i128>) -> bool
    requires { length weights.now.items ≡ length prices.old.items }
    ensures each { length prices.new.items ≡ length prices.old.items }
    ensures taken { (i : ℕ) → i < length prices.old.items → price_in prices.new.items i ≡ weight_at weights.now i }
    ensures kept { result ≡ false → prices.new.items ≡ prices.old.items }
{
    let mut changed = false;
    for i in 0..prices.len() {
        let price = weights.get(i);
        if prices[i] != price {
            prices[i] = price;
            changed = true;
        }
    }
    changed
}

/// The space of the shelf, 0 without one.
fn space_for(p: &Problem) -> usize
    ensures value { result ≡ space_for (shelf_space p.now.limits) }
    ensures bound { result ≤ MOST_COUNT }
{
    match shelf(p) {
        Some(space) => space,
        None => 0,
    }
}

impl KeptTable {
    /// Room for leaves of the problem.
    pub fn new(alloc: Global, p: &Problem) -> Result<KeptTable, NoMemory>
        ensures { IfOk result (λ t. HasTable p.now t) }
    {
        let count = p.products().len();
        let spaces = spaces_of(alloc, p)?;
        let prices = vec![in alloc; 0; count]?;
        let table = ShelfTable::reserve(alloc, count, space_for(p))?;
        Ok(KeptTable {
            spaces,
            prices,
            table,
            filled: false,
        })
    }

    /// Makes the table of these weights, unless it's made already.
    fn refresh(&mut self, p: &Problem, weights: &Weights)
        requires table { HasTable p.now self.old }
        requires weights { AreWeights p.now weights.now }
        ensures table { HasTable p.now self.new }
        ensures filled { IsTableOf self.new.table (space_of p.now) (price_in self.new.prices.items) }
        ensures prices { (i : ℕ) → i < product_count p.now → price_in self.new.prices.items i ≡ weight_at weights.now i }
    {
        let changed = take_prices(weights, &mut self.prices);
        if changed || !self.filled {
            self.table.fill(p, &self.prices);
            self.filled = true;
        }
    }

    /// The shelf's bound at a node whose first `k` products are settled and whose others are Open, where there is one.
    pub fn bound(&mut self, p: &Problem, weights: &Weights, node: &Node, k: usize) -> Option<i128>
        requires table { HasTable p.now self.old }
        requires weights { AreWeights p.now weights.now }
        requires node { length node.now ≡ product_count p.now }
        requires settled { IsSettledTo k node.now }
        ensures value { result ≡ shelf_bound p.now node.now (prices_of weights.now) }
        ensures table { HasTable p.now self.new }
    {
        let space = shelf(p)?;
        let room = room_left(&self.spaces, space, node)?;
        self.refresh(p, weights);
        Some(plus(worth_in(p, weights, node), self.table.best_from(k, room)))
    }
}

//! The bound of a shelf at any node, by one row of the table over products and space.
ghost use Rattle.std.specs.Prelude.{◌≡◌, ℕ, ◌+◌, ◌<◌, ◌≤◌, ◌^◌, true, length, IfOk, IfSome};
ghost use Rattle.offer_model.specs.Problems.{product_count};
ghost use Rattle.offer_model.specs.LeafBounds.{greater_of, raised_by, leaving_out, offering, best_in_space, shelf_space, shelf_bound};
ghost use Rattle.linear_step.specs.Weights.{weight_at, prices_of, IsWithin, AreWeights};
ghost use Rattle.leaf_bounds.specs.Shelves.{cell, IsRow, IsSmall};
ghost use Rattle.leaf_bounds.specs.Kept.{cells_for, HasCells};

use linear_step::Weights;
use linear_weights::plus;
use offer_model::{Limit, Limits, MOST_COUNT, Mark, NoMemory, Node, Problem};
use std::alloc::Global;

/// One row of the table over products and space: a cell for each amount of space up to the shelf's. Without a shelf it is
/// empty.
#[derive(Drop)]
pub struct ShelfRow {
    best: Vec<Option<i128>>,
}

/// The space of the first shelf.
fn shelf_space(limits: &Limits) -> Option<u64>
    ensures { result ≡ shelf_space limits.now.items }
{
    for k in 0..limits.len() {
        if let Limit::Shelf(space) = *limits.get(k) {
            return Some(space);
        }
    }
    None
}

/// The space of the problem's shelf.
pub fn shelf(p: &Problem) -> Option<usize>
    ensures value { result ≡ shelf_space p.now.limits }
    ensures bound { IfSome result (λ space. space ≤ MOST_COUNT) }
{
    match shelf_space(p.limits()) {
        Some(space) => Some(space as usize),
        None => None,
    }
}

/// The number of cells in a row.
fn cell_count(p: &Problem) -> usize
    ensures value { result ≡ cells_for (shelf_space p.now.limits) }
    ensures bound { result ≤ 1001 }
{
    match shelf(p) {
        Some(space) => space + 1,
        None => 0,
    }
}

/// The greater of two sums, where there are some.
fn greater_of(a: Option<i128>, b: Option<i128>) -> Option<i128>
    ensures { result ≡ greater_of a b }
{
    match (a, b) {
        (Some(x), Some(y)) => Some(x.max(y)),
        (Some(x), None) => Some(x),
        (None, other) => other,
    }
}

fn raised_by(price: i128, sum: Option<i128>) -> Option<i128>
    requires price { IsWithin (2 ^ 106) price }
    requires sum { IsSmall (2 ^ 107) sum }
    ensures { result ≡ raised_by price sum }
{
    match sum {
        Some(other) => Some(plus(price, other)),
        None => None,
    }
}

/// A sum that leaves out a product with this mark.
fn leaving_out(mark: Mark, sum: Option<i128>) -> Option<i128>
    ensures { result ≡ leaving_out mark sum }
{
    match mark {
        Mark::In => None,
        Mark::Out | Mark::Open => sum,
    }
}

/// A sum that offers a product with this mark.
fn offering(mark: Mark, sum: Option<i128>) -> Option<i128>
    ensures { result ≡ offering mark true sum }
{
    match mark {
        Mark::Out => None,
        Mark::In | Mark::Open => sum,
    }
}

/// The best in an amount of space with product `i`, from the row of the products before it.
fn best_with(
    p: &Problem,
    weights: &Weights,
    node: &Node,
    i: usize,
    room: usize,
    row: &Vec<Option<i128>>,
) -> Option<i128>
    requires product { i < product_count p.now }
    requires weights { AreWeights p.now weights.now }
    requires node { length node.now ≡ product_count p.now }
    requires room { room < length row.now.items }
    requires row { (r : ℕ) → r ≤ room
        → cell row.now.items r ≡ best_in_space p.now node.now (weight_at weights.now) i r }
    ensures { result ≡ best_in_space p.now node.now (weight_at weights.now) (i + 1) room }
{
    let mark = node.mark(i);
    let space = p.products().get(i).space as usize;
    let offered = if space <= room {
        raised_by(weights.get(i), row[room - space])
    } else {
        None
    };
    greater_of(leaving_out(mark, row[room]), offering(mark, offered))
}

/// One more product: from the most space down, so that what is read is still from before it.
fn sweep(p: &Problem, weights: &Weights, node: &Node, i: usize, row: &mut Vec<Option<i128>>)
    requires product { i < product_count p.now }
    requires weights { AreWeights p.now weights.now }
    requires node { length node.now ≡ product_count p.now }
    requires row { IsRow p.now node.now (weight_at weights.now) i row.old.items }
    ensures row { IsRow p.now node.now (weight_at weights.now) (i + 1) row.new.items }
    ensures length { length row.new.items ≡ length row.old.items }
{
    for room in (0..row.len()).rev() {
        row[room] = best_with(p, weights, node, i, room, row);
    }
}

/// The row of all products.
fn sweep_all(p: &Problem, weights: &Weights, node: &Node, row: &mut Vec<Option<i128>>)
    requires weights { AreWeights p.now weights.now }
    requires node { length node.now ≡ product_count p.now }
    ensures row { IsRow p.now node.now (weight_at weights.now) (product_count p.now) row.new.items }
    ensures small { (room : ℕ) → room < length row.new.items → IsSmall (2 ^ 107) (cell row.new.items room) }
    ensures length { length row.new.items ≡ length row.old.items }
{
    row.fill(Some(0));
    for i in 0..p.products().len() {
        sweep(p, weights, node, i, row);
    }
}

impl ShelfRow {
    /// Room for leaves of the problem.
    pub fn new(alloc: Global, p: &Problem) -> Result<ShelfRow, NoMemory>
        ensures { IfOk result (λ s. HasCells p.now s) }
    {
        let best = vec![in alloc; None; cell_count(p)]?;
        Ok(ShelfRow { best })
    }

    /// The shelf's bound at the node, where there is one.
    pub fn bound(&mut self, p: &Problem, weights: &Weights, node: &Node) -> Option<i128>
        requires cells { HasCells p.now self.old }
        requires weights { AreWeights p.now weights.now }
        requires node { length node.now ≡ product_count p.now }
        ensures value { result ≡ shelf_bound p.now node.now (prices_of weights.now) }
        ensures cells { HasCells p.now self.new }
    {
        sweep_all(p, weights, node, &mut self.best);
        let count = self.best.len();
        if count == 0 {
            return None;
        }
        raised_by(weights.constant(), self.best[count - 1])
    }
}

//! The search for a shortest augmenting path, breadth first over the residual network. That shortest paths are at most as
//! many as products times rows is the textbook's (Edmonds and Karp, 1972): no clause states it.
ghost use Rattle.std.specs.Prelude.{◌≡◌, ℕ, ◌<◌, ◌-◌, true, length};
ghost use Rattle.offer_model.specs.Nodes.{mark_at};
ghost use Rattle.cut_step.specs.Closures.{price_at};
ghost use Rattle.cut_step.specs.Adjacencies.{IsAdjacency};
ghost use Rattle.cut_step.specs.Sizes.{FitTogether};
ghost use Rattle.cut_step.specs.Trees.{product_of};
ghost use Rattle.cut_step.specs.Searches.{IsSearched, Grown, NoneTakes, Tried, Looked, Scanned, Rooted, Ended, supply_of, takes, seen};

use crate::adjacency::Adjacency;
use crate::flow::Flow;
use crate::phase::{Phase, supply_at, taking_at};
use crate::push::least;
use crate::reach::{Entry, Reach, Spot};
use crate::rows::Row;
use offer_model::Node;

/// Goes over row `k`, on or back, where it leads from what the tree holds to what hasn't been seen. Says whether it did.
fn try_row(
    rows: &[Row],
    node: &Node,
    phase: Phase,
    flow: &Flow,
    k: usize,
    reach: &mut Reach,
) -> bool
    requires searched { IsSearched rows.now node.now phase flow.now.amounts.items flow.now.excess.items
        reach.old.spots.items reach.old.tree.items }
    requires row { k < length rows.now }
    requires lists { FitTogether rows.now node.now flow.now reach.old }
    ensures tried { Tried rows.now node.now phase flow.now.amounts.items flow.now.excess.items
        reach.old.spots.items reach.old.tree.items reach.new.spots.items reach.new.tree.items k result }
    ensures lists { FitTogether rows.now node.now flow.now reach.new }
{
    let row = rows[k];
    let amount = flow.amount(k);
    match (reach.spot(row.first), reach.spot(row.second)) {
        (Spot::At(place), Spot::Free) => {
            let cap = reach.entry(place).cap;
            reach.add(Entry {
                product: row.second,
                row: k,
                from: place,
                back: false,
                cap,
            });
            true
        }
        (Spot::Free, Spot::At(place)) if amount > 0 => {
            let cap = least(reach.entry(place).cap, amount);
            reach.add(Entry {
                product: row.first,
                row: k,
                from: place,
                back: true,
                cap,
            });
            true
        }
        _ => false,
    }
}

/// Whether the last entry takes something.
fn last_takes(node: &Node, phase: Phase, flow: &Flow, reach: &Reach) -> bool
    requires some { 0 < length reach.now.tree.items }
    requires node { product_of reach.now.tree.items (length reach.now.tree.items - 1) < length node.now }
    requires each { length flow.now.excess.items ≡ length node.now }
    ensures { let i = product_of reach.now.tree.items (length reach.now.tree.items - 1) in
        result ≡ takes phase (mark_at node.now i) (price_at flow.now.excess.items i) }
{
    let i = reach.entry(reach.tree.len() - 1).product;
    taking_at(phase, node, flow, i)
}

/// Tries row `k`, and gives the place of what it adds where that takes something.
fn look(
    rows: &[Row],
    node: &Node,
    phase: Phase,
    flow: &Flow,
    k: usize,
    reach: &mut Reach,
) -> Option<usize>
    requires searched { IsSearched rows.now node.now phase flow.now.amounts.items flow.now.excess.items
        reach.old.spots.items reach.old.tree.items }
    requires none { NoneTakes node.now phase flow.now.excess.items reach.old.tree.items }
    requires row { k < length rows.now }
    requires lists { FitTogether rows.now node.now flow.now reach.old }
    ensures looked { Looked rows.now node.now phase flow.now.amounts.items flow.now.excess.items
        reach.old.spots.items reach.old.tree.items reach.new.spots.items reach.new.tree.items k result }
    ensures lists { FitTogether rows.now node.now flow.now reach.new }
{
    if !try_row(rows, node, phase, flow, k, reach) {
        return None;
    }
    if last_takes(node, phase, flow, reach) {
        return Some(reach.tree.len() - 1);
    }
    None
}

/// Tries each row at the product of the entry at a place.
fn scan(
    rows: &[Row],
    adjacency: &Adjacency,
    node: &Node,
    phase: Phase,
    flow: &Flow,
    place: usize,
    reach: &mut Reach,
) -> Option<usize>
    requires searched { IsSearched rows.now node.now phase flow.now.amounts.items flow.now.excess.items
        reach.old.spots.items reach.old.tree.items }
    requires none { NoneTakes node.now phase flow.now.excess.items reach.old.tree.items }
    requires place { place < length reach.old.tree.items }
    requires adjacency { IsAdjacency rows.now (length node.now) adjacency.now }
    requires lists { FitTogether rows.now node.now flow.now reach.old }
    // What was tried.
    ensures scanned { Scanned rows.now node.now phase flow.now.amounts.items flow.now.excess.items
        reach.old.spots.items reach.old.tree.items reach.new.spots.items reach.new.tree.items
        (product_of reach.old.tree.items place) result }
    ensures lists { FitTogether rows.now node.now flow.now reach.new }
{
    let i = reach.entry(place).product;
    for position in adjacency.start(i)..adjacency.start(i + 1) {
        let k = adjacency.row(position);
        match look(rows, node, phase, flow, k, reach) {
            Some(found) => return Some(found),
            None => {}
        }
    }
    None
}

/// Puts product `i` into the tree where it gives something.
fn try_root(rows: &[Row], node: &Node, phase: Phase, flow: &Flow, i: usize, reach: &mut Reach)
    requires searched { IsSearched rows.now node.now phase flow.now.amounts.items flow.now.excess.items
        reach.old.spots.items reach.old.tree.items }
    requires inside { i < length reach.old.spots.items }
    requires lists { FitTogether rows.now node.now flow.now reach.old }
    ensures rooted { Rooted rows.now node.now phase flow.now.amounts.items flow.now.excess.items
        reach.old.spots.items reach.old.tree.items reach.new.spots.items reach.new.tree.items i }
    ensures lists { FitTogether rows.now node.now flow.now reach.new }
{
    let cap = supply_at(phase, node, flow, i);
    if cap > 0 {
        if let Spot::Free = reach.spot(i) {
            let from = reach.tree.len();
            reach.add(Entry {
                product: i,
                row: 0,
                from,
                back: false,
                cap,
            });
        }
    }
}

/// Puts all products into the tree that give something.
fn roots(rows: &[Row], node: &Node, phase: Phase, flow: &Flow, reach: &mut Reach)
    requires searched { IsSearched rows.now node.now phase flow.now.amounts.items flow.now.excess.items
        reach.old.spots.items reach.old.tree.items }
    requires none { NoneTakes node.now phase flow.now.excess.items reach.old.tree.items }
    requires lists { FitTogether rows.now node.now flow.now reach.old }
    ensures searched { IsSearched rows.now node.now phase flow.now.amounts.items flow.now.excess.items
        reach.new.spots.items reach.new.tree.items }
    ensures grown { Grown reach.old.spots.items reach.old.tree.items reach.new.spots.items reach.new.tree.items }
    ensures none { NoneTakes node.now phase flow.now.excess.items reach.new.tree.items }
    ensures reached { (i : ℕ) → i < length reach.old.spots.items → 0 < supply_of phase (mark_at node.now i) (price_at flow.now.excess.items i)
        → seen reach.new.spots.items i ≡ true }
    ensures lists { FitTogether rows.now node.now flow.now reach.new }
{
    for i in 0..node.len() {
        try_root(rows, node, phase, flow, i, reach);
    }
}

/// Searches breadth first from all products that give something, until a product is reached that takes something, whose
/// place it gives, or the rows at all that was reached have been tried. So the path to that product is a shortest one.
pub fn search(
    rows: &[Row],
    adjacency: &Adjacency,
    node: &Node,
    phase: Phase,
    flow: &Flow,
    reach: &mut Reach,
) -> Option<usize>
    requires searched { IsSearched rows.now node.now phase flow.now.amounts.items flow.now.excess.items
        reach.old.spots.items reach.old.tree.items }
    requires none { NoneTakes node.now phase flow.now.excess.items reach.old.tree.items }
    requires adjacency { IsAdjacency rows.now (length node.now) adjacency.now }
    requires lists { FitTogether rows.now node.now flow.now reach.old }
    // What was reached.
    ensures ended { Ended rows.now node.now phase flow.now.amounts.items flow.now.excess.items
        reach.old.spots.items reach.old.tree.items reach.new.spots.items reach.new.tree.items result }
    ensures lists { FitTogether rows.now node.now flow.now reach.new }
{
    roots(rows, node, phase, flow, reach);
    let mut place = 0;
    while place < reach.tree.len() {
        match scan(rows, adjacency, node, phase, flow, place, reach) {
            Some(found) => return Some(found),
            None => {}
        }
        place += 1;
    }
    None
}

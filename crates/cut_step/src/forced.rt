//! The first phase: what products that are In require is offered, and paid by them.
ghost use Rattle.std.specs.Prelude.{◌≡◌, ℕ, ◌<◌, ◌≤◌, ◌^◌, [], length, slice_index, pos, ◌≤ℤ◌, MatchBool};
ghost use Rattle.offer_model.specs.Nodes.{mark_at};
ghost use Rattle.cut_step.specs.Closures.{AreNamed, price_at};
ghost use Rattle.cut_step.specs.Flows.{AreWithin};
ghost use Rattle.cut_step.specs.Trees.{IsTree, Unused, product_of};
ghost use Rattle.cut_step.specs.Searches.{IsFull, spot_at};
ghost use Rattle.cut_step.specs.Adjacencies.{IsAdjacency};
ghost use Rattle.cut_step.specs.Sizes.{CanPush, FitTogether};
ghost use Rattle.cut_step.specs.Phases.{AreSmall, IsFlowing, IsBegun, IsImpossible, NoneBack, Covered};

use crate::adjacency::Adjacency;
use crate::flow::Flow;
use crate::phase::{Phase, deficit_at};
use crate::push::push;
use crate::reach::{Entry, Reach, Spot};
use crate::rows::Row;
use crate::search::search;
use offer_model::{Mark, Node};

/// Covers the deficit of the Open product at a place of the tree.
fn cover_deficit(rows: &[Row], node: &Node, tree: &[Entry], place: usize, flow: &mut Flow)
    requires push { CanPush rows.now tree.now flow.old }
    requires full { IsFull node.now tree.now }
    requires within { AreWithin flow.old.excess.items (2 ^ 109) }
    requires node { length node.now ≡ length flow.old.excess.items }
    requires place { place < length tree.now }
    ensures covered { Covered rows.now node.now flow.old.excess.items flow.old.amounts.items tree.now place
        flow.new.excess.items flow.new.amounts.items }
    ensures excess { length flow.new.excess.items ≡ length flow.old.excess.items }
{
    let d = deficit_at(node, flow, tree[place].product);
    if d > 0 {
        push(rows, tree, place, d, flow);
    }
}

/// Covers the deficits of all Open products of the tree.
fn cover_deficits(rows: &[Row], node: &Node, tree: &[Entry], flow: &mut Flow)
    requires tree { IsTree rows.now (length flow.old.excess.items) flow.old.amounts.items tree.now }
    requires ahead { NoneBack tree.now }
    requires full { IsFull node.now tree.now }
    requires names { AreNamed rows.now (length flow.old.excess.items) }
    requires flowing { IsFlowing rows.now node.now flow.old.excess.items flow.old.excess.items flow.old.amounts.items }
    requires node { length node.now ≡ length flow.old.excess.items }
    ensures flowing { IsFlowing rows.now node.now flow.old.excess.items flow.new.excess.items flow.new.amounts.items }
    ensures has { (j : ℕ) → j < length tree.now → mark_at node.now (product_of tree.now j) ≡ Mark.Open
        → pos 0 ≤ℤ price_at flow.new.excess.items (product_of tree.now j) }
    ensures unused { (k : ℕ) → Unused tree.now k
        → slice_index flow.new.amounts.items k ≡ slice_index flow.old.amounts.items k }
{
    for place in 0..tree.len() {
        cover_deficit(rows, node, tree, place, flow);
    }
}

/// The first phase. All that products marked In require, one after the other, has to be offered. Where an Out product is
/// among it, there is no closed set, and an amount of 2^108 on the path to it shows that. Else what is required is kept,
/// and the deficits of Open products among it are covered by the products that are In.
pub fn cover_required(
    rows: &[Row],
    adjacency: &Adjacency,
    node: &Node,
    flow: &mut Flow,
    reach: &mut Reach,
) -> bool
    requires adjacency { IsAdjacency rows.now (length node.now) adjacency.now }
    requires small { AreSmall flow.old.excess.items }
    requires lists { FitTogether rows.now node.now flow.old reach.old }
    requires zero { (k : ℕ) → slice_index flow.old.amounts.items k ≡ 0 }
    requires empty { reach.old.tree.items ≡ [] }
    requires free { (i : ℕ) → spot_at reach.old.spots.items i ≡ Spot.Free }
    ensures begun { MatchBool result
        (IsBegun rows.now node.now flow.old.excess.items flow.new.excess.items flow.new.amounts.items
        reach.new.spots.items reach.new.tree.items)
        (IsImpossible rows.now node.now flow.old.excess.items flow.new.excess.items flow.new.amounts.items) }
    ensures lists { FitTogether rows.now node.now flow.new reach.new }
{
    match search(rows, adjacency, node, Phase::Forced, flow, reach) {
        Some(place) => {
            push(rows, &reach.tree, place, 1 << 108, flow);
            false
        }
        None => {
            cover_deficits(rows, node, &reach.tree, flow);
            reach.keep();
            true
        }
    }
}

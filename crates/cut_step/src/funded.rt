//! The second phase: Open products with an excess pay for those with a deficit, until the flow is a greatest one.
ghost use Rattle.std.specs.Prelude.{◌≡◌, ℕ, ◌<◌, ◌≤◌, ◌^◌, List, length, slice_index};
ghost use lib.IntN.{ℤ};
ghost use Rattle.cut_step.specs.Closures.{AreNamed};
ghost use Rattle.cut_step.specs.Flows.{AreWithin};
ghost use Rattle.cut_step.specs.Adjacencies.{IsAdjacency};
ghost use Rattle.cut_step.specs.Sizes.{FitTogether};
ghost use Rattle.cut_step.specs.Phases.{IsUnderway, IsBegun, IsSolved};

use crate::adjacency::Adjacency;
use crate::flow::Flow;
use crate::phase::{Phase, deficit_at, supply_at};
use crate::push::{augment, portion};
use crate::reach::{Reach, Spot, is_seen};
use crate::rows::Row;
use crate::search::search;
use offer_model::Node;

/// Saturates row `k` alone: carries what its two products can give and take.
fn saturate(rows: &[Row], node: &Node, k: usize, spots: &[Spot], flow: &mut Flow)
    requires row { k < length rows.now }
    requires names { AreNamed rows.now (length flow.old.excess.items) }
    requires each { length flow.old.amounts.items ≡ length rows.now }
    requires node { length node.now ≡ length flow.old.excess.items }
    requires spots { length spots.now ≡ length flow.old.excess.items }
    requires within { AreWithin flow.old.excess.items (2 ^ 119) }
    requires room { (k : ℕ) → slice_index flow.old.amounts.items k ≤ 2 ^ 109 }
    ensures underway { (w : List ℤ) → IsUnderway rows.now node.now w flow.old.excess.items flow.old.amounts.items spots.now
        → IsUnderway rows.now node.now w flow.new.excess.items flow.new.amounts.items spots.now }
    ensures each { length flow.new.amounts.items ≡ length flow.old.amounts.items }
    ensures excess { length flow.new.excess.items ≡ length flow.old.excess.items }
{
    let row = rows[k];
    if is_seen(spots[row.first]) || is_seen(spots[row.second]) {
        return;
    }
    let has = supply_at(Phase::Funded, node, flow, row.first);
    if has == 0 {
        return;
    }
    let need = deficit_at(node, flow, row.second);
    if need == 0 {
        return;
    }
    let d = portion(has, need);
    flow.carry_over(row, k, false, d);
}

/// Saturates each row alone, before any search.
fn saturate_all(rows: &[Row], node: &Node, spots: &[Spot], flow: &mut Flow)
    requires names { AreNamed rows.now (length node.now) }
    requires spots { length spots.now ≡ length node.now }
    requires excess { length flow.old.excess.items ≡ length node.now }
    requires underway { (w : List ℤ) × IsUnderway rows.now node.now w flow.old.excess.items flow.old.amounts.items spots.now }
    ensures underway { (w : List ℤ) → IsUnderway rows.now node.now w flow.old.excess.items flow.old.amounts.items spots.now
        → IsUnderway rows.now node.now w flow.new.excess.items flow.new.amounts.items spots.now }
    ensures each { length flow.new.amounts.items ≡ length flow.old.amounts.items }
    ensures excess { length flow.new.excess.items ≡ length flow.old.excess.items }
{
    for k in 0..rows.len() {
        saturate(rows, node, k, spots, flow);
    }
}

/// The second phase: carries amounts along shortest augmenting paths, from Open products with an excess to those with a
/// deficit and to what is Out, until there is no such path. What the last search saw is then the near side of a least cut.
/// The prices are those with which the first phase began. Since each path is a shortest one, there are at most as many as
/// products times rows, and each takes a search over the rows (Edmonds and Karp, 1972).
pub fn augment_all(
    rows: &[Row],
    adjacency: &Adjacency,
    node: &Node,
    flow: &mut Flow,
    reach: &mut Reach,
)
    requires adjacency { IsAdjacency rows.now (length node.now) adjacency.now }
    requires lists { FitTogether rows.now node.now flow.old reach.old }
    requires begun { (w : List ℤ) × IsBegun rows.now node.now w flow.old.excess.items flow.old.amounts.items
        reach.old.spots.items reach.old.tree.items }
    ensures solved { (w : List ℤ) → IsBegun rows.now node.now w flow.old.excess.items flow.old.amounts.items
        reach.old.spots.items reach.old.tree.items
        → IsSolved rows.now node.now w flow.new.excess.items flow.new.amounts.items reach.new.spots.items }
    ensures lists { FitTogether rows.now node.now flow.new reach.new }
{
    saturate_all(rows, node, &reach.spots, flow);
    'paths: loop {
        match search(rows, adjacency, node, Phase::Funded, flow, reach) {
            None => return,
            Some(place) => {
                augment(rows, node, &reach.tree, place, flow);
                reach.forget();
            }
        }
    }
}

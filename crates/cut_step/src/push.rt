//! An amount that is carried along an augmenting path.
ghost use Rattle.std.specs.Prelude.{◌≡◌, ℕ, ◌<◌, ◌≤◌, ◌^◌, ◌⊎◌, List, length};
ghost use lib.IntN.{ℤ};
ghost use Rattle.cut_step.specs.Trees.{Pushed, before, cap};
ghost use Rattle.cut_step.specs.Searches.{RootsGive, TakesAt};
ghost use Rattle.cut_step.specs.Sizes.{CanPush};
ghost use Rattle.cut_step.specs.Phases.{IsFlowing, Augmented};

use crate::flow::Flow;
use crate::phase::{Phase, deficit_at};
use crate::reach::Entry;
use crate::rows::Row;
use offer_model::Node;

/// Carries d to the product of the entry at place `start`, from that of its root, whose place it gives.
pub fn push(rows: &[Row], tree: &[Entry], start: usize, d: u128, flow: &mut Flow) -> usize
    requires push { CanPush rows.now tree.now flow.old }
    requires start { start < length tree.now }
    requires small { d ≤ 2 ^ 109 }
    requires enough { d ≤ cap tree.now start }
    ensures root { before tree.now result ≡ result }
    ensures pushed { Pushed rows.now tree.now start d flow.old.amounts.items flow.old.excess.items
        result flow.new.amounts.items flow.new.excess.items }
{
    let mut at = start;
    while tree[at].from < at {
        let entry = tree[at];
        flow.carry_over(rows[entry.row], entry.row, entry.back, d);
        at = entry.from;
    }
    at
}

/// The lesser of two amounts.
pub fn least(a: u128, b: u128) -> u128
    ensures first { result ≤ a }
    ensures second { result ≤ b }
    ensures some { 0 < a → 0 < b → 0 < result }
    ensures either { (result ≡ a) ⊎ (result ≡ b) }
{
    if a < b { a } else { b }
}

/// As much as the path holds, and no more than the deficit where there is one.
pub fn portion(cap: u128, deficit: u128) -> u128
    requires { 0 < cap }
    ensures some { 0 < result }
    ensures cap { result ≤ cap }
    ensures small { result ≤ 2 ^ 108 }
    ensures need { 0 < deficit → result ≤ deficit }
    ensures whole { (result ≡ cap) ⊎ ((result ≡ 2 ^ 108) ⊎ (result ≡ deficit)) }
{
    let most = least(cap, 1 << 108);
    if deficit == 0 {
        most
    } else {
        least(most, deficit)
    }
}

/// Carries an amount along an augmenting path: from the root to the entry that takes something.
pub fn augment(rows: &[Row], node: &Node, tree: &[Entry], place: usize, flow: &mut Flow)
    requires push { CanPush rows.now tree.now flow.old }
    requires roots { RootsGive node.now Phase.Funded flow.old.excess.items tree.now }
    requires some { (j : ℕ) → j < length tree.now → 0 < cap tree.now j }
    requires node { length node.now ≡ length flow.old.excess.items }
    requires place { place < length tree.now }
    requires takes { TakesAt node.now Phase.Funded flow.old.excess.items tree.now place }
    ensures augmented { (w : List ℤ) → IsFlowing rows.now node.now w flow.old.excess.items flow.old.amounts.items
        → Augmented rows.now node.now w flow.old.excess.items flow.old.amounts.items tree.now
        flow.new.excess.items flow.new.amounts.items }
    ensures each { length flow.new.amounts.items ≡ length flow.old.amounts.items }
    ensures excess { length flow.new.excess.items ≡ length flow.old.excess.items }
{
    let entry = tree[place];
    let need = deficit_at(node, flow, entry.product);
    push(rows, tree, place, portion(entry.cap, need), flow);
}

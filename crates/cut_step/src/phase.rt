//! What products can give and take in either phase.
ghost use Rattle.std.specs.Prelude.{◌≡◌, ◌<◌, length};
ghost use Rattle.offer_model.specs.Nodes.{mark_at};
ghost use Rattle.cut_step.specs.Closures.{price_at};
ghost use Rattle.cut_step.specs.Searches.{supply_of, takes, deficit_of};

use crate::flow::Flow;
use offer_model::{Mark, Node};

/// From which products amounts are carried.
#[derive(Clone, Copy)]
pub enum Phase {
    /// From what is In, which gives without end to what it requires.
    Forced,
    /// From Open products with an excess, which give that.
    Funded,
}

/// What a product of this excess can give.
// In the first phase twice the amount of an infeasible path, so that no path takes it all.
fn supply(phase: Phase, mark: Mark, excess: i128) -> u128
    ensures { result ≡ supply_of phase mark excess }
{
    match (phase, mark) {
        (Phase::Forced, Mark::In) => 1 << 109,
        (Phase::Funded, Mark::Open) => if excess < 0 { 0 } else { excess as u128 },
        _ => 0,
    }
}

/// Whether a product of this excess takes something.
fn taking(phase: Phase, mark: Mark, excess: i128) -> bool
    ensures { result ≡ takes phase mark excess }
{
    match mark {
        Mark::In => false,
        Mark::Out => true,
        Mark::Open => matches!(phase, Phase::Funded) && excess < 0,
    }
}

/// The deficit of an Open product.
fn deficit(mark: Mark, excess: i128) -> u128
    ensures { result ≡ deficit_of mark excess }
{
    match mark {
        Mark::In | Mark::Out => 0,
        Mark::Open => if excess < 0 { excess.unsigned_abs() } else { 0 },
    }
}

/// What product `i` can give.
pub fn supply_at(phase: Phase, node: &Node, flow: &Flow, i: usize) -> u128
    requires node { i < length node.now }
    requires excess { i < length flow.now.excess.items }
    ensures { result ≡ supply_of phase (mark_at node.now i) (price_at flow.now.excess.items i) }
{
    supply(phase, node.mark(i), flow.excess(i))
}

/// Whether product `i` takes something.
pub fn taking_at(phase: Phase, node: &Node, flow: &Flow, i: usize) -> bool
    requires node { i < length node.now }
    requires excess { i < length flow.now.excess.items }
    ensures { result ≡ takes phase (mark_at node.now i) (price_at flow.now.excess.items i) }
{
    taking(phase, node.mark(i), flow.excess(i))
}

/// The deficit of product `i`.
pub fn deficit_at(node: &Node, flow: &Flow, i: usize) -> u128
    requires node { i < length node.now }
    requires excess { i < length flow.now.excess.items }
    ensures { result ≡ deficit_of (mark_at node.now i) (price_at flow.now.excess.items i) }
{
    deficit(node.mark(i), flow.excess(i))
}

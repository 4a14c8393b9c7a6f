//! The product by which a node is divided.
ghost use Rattle.std.specs.Prelude.{◌≡◌, length};
ghost use Rattle.offer_model.specs.Nodes.{mark_at, is_open};
ghost use Rattle.offer_model.specs.Problems.{product_count};
ghost use Rattle.offer_model.specs.Validity.{NamesExisting};
ghost use Rattle.several_step.specs.Opens.{first_ranked, forced_of, forced_by, first_forced, next_by};

use crate::branch_order::Ranked;
use offer_model::{Limit, Mark, Node, Problem};

/// Whether product `i` is there and Open.
fn is_open_at(node: &Node, i: usize) -> bool
    ensures { result ≡ is_open (mark_at node.now i) }
{
    i < node.len() && node.mark(i) == Mark::Open
}

/// The first ranked product that is Open.
fn first_ranked(order: &[Ranked], node: &Node) -> Option<usize>
    ensures { result ≡ first_ranked order.now node.now }
{
    for k in 0..order.len() {
        if is_open_at(node, order[k].product) {
            return Some(order[k].product);
        }
    }
    None
}

/// Of a product and one that it requires, the Open one that the other's mark forces.
fn forced_of(a: usize, b: usize, first: Mark, second: Mark) -> Option<usize>
    ensures { result ≡ forced_of a b first second }
{
    match first {
        Mark::In if second == Mark::Open => Some(b),
        Mark::Open if second == Mark::Out => Some(a),
        _ => None,
    }
}

/// The Open product that the limit forces: what a product that is In requires, or what requires one that is Out.
fn forced_by(p: &Problem, node: &Node, limit: Limit) -> Option<usize>
    requires length { length node.now ≡ product_count p.now }
    requires named { NamesExisting p.now limit }
    ensures { result ≡ forced_by node.now limit }
{
    match limit {
        Limit::Requires(a, b) => forced_of(a, b, node.mark(a), node.mark(b)),
        _ => None,
    }
}

/// The Open product that the first limit which forces one does.
fn first_forced(p: &Problem, node: &Node) -> Option<usize>
    requires { length node.now ≡ product_count p.now }
    ensures { result ≡ first_forced p.now.limits node.now }
{
    for k in 0..p.limits().len() {
        if let Some(i) = forced_by(p, node, *p.limits().get(k)) {
            return Some(i);
        }
    }
    None
}

/// The first Open product that a limit forces, else the first ranked one, else the first in catalogue order. One side of a
/// forced product clashes at once, so requirements are followed before anything is chosen.
pub fn next_by(p: &Problem, order: &[Ranked], node: &Node) -> Option<usize>
    requires { length node.now ≡ product_count p.now }
    ensures { result ≡ next_by p.now.limits order.now node.now }
{
    if let Some(i) = first_forced(p, node) {
        return Some(i);
    }
    match first_ranked(order, node) {
        Some(i) => Some(i),
        None => node.first_open(),
    }
}

//! Nodes that clash with a limit.
ghost use Rattle.std.specs.Prelude.{◌≡◌, ◌↔◌, IsTrue, length};
ghost use Rattle.offer_model.specs.Problems.{product_count};
ghost use Rattle.offer_model.specs.Validity.{NamesExisting};
ghost use Rattle.offer_model.specs.Nodes.{ClashesAt, Clashes};

use crate::meets::meets;
use offer_model::{Limit, Mark, Node, Problem};

/// Whether the node clashes with one limit.
fn clashes_at(p: &Problem, node: &Node, limit: Limit) -> bool
    requires length { length node.now ≡ product_count p.now }
    requires named { NamesExisting p.now limit }
    ensures { IsTrue result ↔ ClashesAt p.now node.now limit }
{
    if let Limit::Requires(a, b) = limit {
        node.mark(a) == Mark::In && node.mark(b) == Mark::Out
    } else {
        !meets(p, node, limit)
    }
}

/// Whether what is In breaks a cap, the shelf or a ladder by itself, or a product that is In requires one that is Out.
pub fn clashes(p: &Problem, node: &Node) -> bool
    requires { length node.now ≡ product_count p.now }
    ensures { IsTrue result ↔ Clashes p.now node.now }
{
    for k in 0..p.limits().len() {
        if clashes_at(p, node, *p.limits().get(k)) {
            return true;
        }
    }
    false
}

//! A node and an assortment in the order of ties.
ghost use Rattle.std.specs.Prelude.{◌≡◌, ◌↔◌, IsTrue, length};
ghost use Rattle.offer_model.specs.Nodes.{ComesAfter};

use crate::choice::Choice;
use offer_model::{Assortment, Node};

/// Whether the node's first completion, which offers what is In, isn't before `x`.
pub fn comes_after(node: &Node, x: &Assortment) -> bool
    requires { length x.now ≡ length node.now }
    ensures { IsTrue result ↔ ComesAfter node.now x.now }
{
    for i in 0..x.len() {
        if node.has(i) != x.offers(i) {
            return node.has(i);
        }
    }
    true
}

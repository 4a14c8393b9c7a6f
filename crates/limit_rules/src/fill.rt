//! The assortment that a node fills out to.
ghost use Rattle.std.specs.Prelude.{◌≡◌, length};
ghost use Rattle.offer_model.specs.Nodes.{fill_of};

use crate::choice::Choice;
use offer_model::{Assortment, Node};

/// Offers exactly what is In.
pub fn fill_out(node: &Node, into: &mut Assortment)
    requires { length node.now ≡ length into.old }
    ensures { into.new ≡ fill_of node.now }
{
    for i in 0..node.len() {
        into.set(i, node.has(i));
    }
}

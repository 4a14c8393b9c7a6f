//! What limits are read of.
ghost use Rattle.std.specs.Prelude.{◌≡◌, ◌<◌, List, Bool, length};
ghost use Rattle.offer_model.specs.Assortments.{offers};
ghost use Rattle.offer_model.specs.Nodes.{fill_of};

use offer_model::{Assortment, Mark, Node};

/// What limits are read of: an assortment, or what a node has In.
pub trait Choice {
    /// The assortment that is chosen.
    ghost chosen: { Self → List Bool };

    /// Whether product `i` is chosen.
    fn has(&self, i: usize) -> bool
        requires { i < length (chosen self.now) }
        ensures { result ≡ offers (chosen self.now) i };
}

impl Choice for Assortment {
    ghost chosen = { λ x. x };

    fn has(&self, i: usize) -> bool {
        self.offers(i)
    }
}

impl Choice for Node {
    ghost chosen = { λ node. fill_of node };

    fn has(&self, i: usize) -> bool {
        self.mark(i) == Mark::In
    }
}

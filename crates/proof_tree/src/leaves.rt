//! A rule of leaves, for readers of trees.
ghost use Rattle.std.specs.Prelude.{◌≡◌, ℕ, ◌↔◌, List, ◌∷◌, length, IsTrue};
ghost use Rattle.offer_model.specs.declared.node.Mark.{Mark};
ghost use Rattle.proof_tree.specs.Trees.{IsRead};

use offer_model::{Node, Wide};
use proof_lines::Shape;

/// A rule of leaves.
pub trait Leaves {
    /// How many products its nodes have.
    ghost products: { Self → ℕ };

    /// The leaf of this line closes the node.
    ghost Closes: { Self → List Mark → List ℕ → Type 0 };

    /// Whether the line, which `read_line` has read as this, closes the node.
    fn close(&mut self, node: &Node, line: &[u8], shape: Option<Shape>, numbers: &Wide) -> bool
        requires each { length node.now ≡ products self.old }
        requires read { IsRead line.now shape numbers.now.items }
        ensures closes { IsTrue result ↔ Closes self.old node.now line.now }
        ensures same { self.new ≡ self.old };

    /// No leaf's line begins as a branch does.
    ghost no_branch: { (s : Self) (node : List Mark) (l : List ℕ) → ¬ Closes s node (98 ∷ l) };
}

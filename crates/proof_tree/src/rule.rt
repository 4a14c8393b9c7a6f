//! A rule that fixes a tree.
ghost use Rattle.std.specs.Prelude.{◌≡◌, ℕ, ◌+◌, ◌≤◌, ◌↔◌, List, [], length};
ghost use Rattle.offer_model.specs.declared.node.Mark.{Mark};
ghost use Rattle.offer_model.specs.declared.node.Mark.TheVariants.{Open};
ghost use Rattle.offer_model.specs.Nodes.{mark_at, opens};
ghost use Rattle.proof_tree.specs.Rules.{SaysLeaf, StandsAt};

use offer_model::{Bytes, Node};

/// Room for the text of a line with its line feed.
pub const LINE_ROOM: usize = 40_000;

/// A rule that fixes a tree: at each node its leaf where it has one, else its branch. It is asked at nodes of its own tree alone,
/// and told how many products they settle, which is how deep they stand.
pub trait TreeRule {
    /// How many products its nodes have.
    ghost products: { Self → ℕ };

    /// The node's leaf has this line.
    ghost LeafOf: { Self → List Mark → List ℕ → Type 0 };

    /// The node's branch is on this product.
    ghost BranchesOn: { Self → List Mark → ℕ → Type 0 };

    /// Puts the line of the node's leaf, with its line feed, into `text`, and says whether it has one.
    fn leaf(&mut self, node: &Node, depth: usize, text: &mut Bytes) -> bool
        requires each { length node.now ≡ products self.old }
        requires depth { depth + opens node.now ≡ length node.now }
        requires stands { StandsAt (LeafOf self.old) (BranchesOn self.old) (products self.old) depth node.now }
        requires empty { text.old.items ≡ [] }
        requires room { LINE_ROOM ≤ text.old.spare }
        ensures leaf { SaysLeaf (LeafOf self.old node.now) text.new.items result }
        ensures room { text.new.spare + length text.new.items ≡ text.old.spare }
        ensures same { self.new ≡ self.old };

    /// The product that is branched on at a node without a leaf.
    fn branch(&self, node: &Node, depth: usize) -> usize
        requires each { length node.now ≡ products self.now }
        requires depth { depth + opens node.now ≡ length node.now }
        requires stands { StandsAt (LeafOf self.now) (BranchesOn self.now) (products self.now) depth node.now }
        requires none { (l : List ℕ) → ¬ LeafOf self.now node.now l }
        ensures open { mark_at node.now result ≡ Open }
        ensures only { (i : ℕ) → BranchesOn self.now node.now i ↔ (i ≡ result) };
}

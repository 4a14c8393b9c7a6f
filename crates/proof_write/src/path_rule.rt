//! The rule of certificates for limits of one kind: a path along the best assortment.
ghost use Rattle.std.specs.Prelude.{◌≡◌, ◌≢◌, ◌<◌, ◌≤◌, ◌↔◌, length, IsTrue};
ghost use Rattle.offer_model.specs.Assortments.{offers};
ghost use Rattle.offer_model.specs.Nodes.{mark_at};
ghost use Rattle.offer_model.specs.declared.node.Mark.TheVariants.{Open};
ghost use Rattle.proof_lines.specs.Writing.{offered_end};
ghost use Rattle.proof_write.specs.Leaves.{mark_of};
ghost use Rattle.proof_write.specs.PathRules.{IsTurn, IsNear};

use crate::leaves::mark_of;
use offer_model::{Assortment, Bytes, Mark, Node};
use proof_lines::{Line, print_line};
use proof_tree::TreeRule;
use std::marker::Model;

/// The tree along the assortment: a branch on each product up to the last that is offered, and beside the path these leaves.
#[derive(Drop)]
pub(crate) struct PathRule<'a> {
    pub(crate) best: &'a Assortment,
    pub(crate) leaves: Vec<Line>,
    pub(crate) end: usize,
}

impl<'a> Model for PathRule<'a> {
    ghost use Rattle.proof_tree.specs.Pens.{lines_data};
    ghost use Rattle.proof_write.specs.PathRules.{PathData, IsPathRule};

    ghost Value = { PathData };

    ghost view = { λ r. record { best = r.best.now; leaves = lines_data r.leaves.items } };

    ghost invariant = { λ r. IsPathRule r.best.now r.leaves.items r.end };
}

/// Whether the node settles product `i` otherwise than `x` does, or leaves it Open.
fn strays(x: &Assortment, node: &Node, i: usize) -> bool
    requires x { i < length x.now }
    requires node { i < length node.now }
    ensures { IsTrue result ↔ (mark_at node.now i ≢ mark_of (offers x.now i)) }
{
    node.mark(i) != mark_of(x.offers(i))
}

/// The first product that the node, which stands at this depth, doesn't settle as `x` does: its last settled one, or the next.
fn turn_of(x: &Assortment, node: &Node, depth: usize) -> usize
    requires each { length node.now ≡ length x.now }
    requires near { IsNear x.now node.now (offered_end x.now) depth }
    ensures { IsTurn x.now node.now (offered_end x.now) result }
{
    if depth > 0 && strays(x, node, depth - 1) {
        return depth - 1;
    }
    depth
}

/// Whether product `k` is before the end, and Open.
fn goes_on(node: &Node, k: usize, end: usize) -> bool
    requires { end ≤ length node.now }
    ensures { IsTrue result ↔ ((k < end) × (mark_at node.now k ≡ Open)) }
{
    k < end && node.mark(k) == Mark::Open
}

impl<'a> TreeRule for PathRule<'a> {
    ghost use Rattle.std.specs.Prelude.{length as long};
    ghost use Rattle.proof_write.specs.PathRules.{PathLeaf, PathBranch};

    ghost products = { λ r. long r.best };

    ghost LeafOf = { λ r node l. PathLeaf r node l };

    ghost BranchesOn = { λ r node i. PathBranch r node i };

    fn leaf(&mut self, node: &Node, depth: usize, text: &mut Bytes) -> bool {
        let k = turn_of(self.best, node, depth);
        if goes_on(node, k, self.end) {
            return false;
        }
        print_line(&self.leaves[k], text);
        true
    }

    fn branch(&self, node: &Node, depth: usize) -> usize {
        turn_of(self.best, node, depth)
    }
}

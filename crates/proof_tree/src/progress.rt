//! Readers of trees.
ghost use Rattle.std.specs.Prelude.{◌≡◌, ℕ, ◌<◌, ◌≤◌, ◌↔◌, List, [], ◌∷◌, length, IsTrue, IfOk, IfSome, IfNone, Some};
ghost use Rattle.offer_model.specs.Nodes.{mark_at, open_node};
ghost use Rattle.offer_model.specs.declared.node.Mark.{Mark};
ghost use Rattle.proof_lines.specs.declared.line.Shape.TheVariants as Shapes;
ghost use Rattle.proof_tree.specs.Stages.{BranchesOpen, phase_of, products_of, EndsBy, BranchesBy, LeavesBy, HasNumbers};
ghost use Rattle.proof_tree.specs.Trees.{TreeWaits, TreeLeads, IsRead};
ghost use Rattle.proof_tree.specs.Trees.TreePhase.{in_trees, at_end, refused};

use crate::leaves::Leaves;
use crate::machine::MOST_LINE;
use crate::path::Path;
use offer_model::{Mark, NoMemory, Node, Wide};
use proof_lines::{Shape, read_line};
use std::alloc::Global;

/// Which line comes next: one of the trees or the end, none, or nothing that could be accepted.
#[derive(Clone, Copy, PartialEq, Eq)]
pub(crate) enum Stage {
    Tree,
    End,
    Refused,
}

/// How far the lines of a tree have been read.
#[derive(Drop)]
pub struct TreeProgress {
    path: Path,
    stage: Stage,
}

/// The product of this number, where it is Open.
fn open_product(node: &Node, number: u128) -> Option<usize>
    ensures some { IfSome result (λ i. (i ≡ number) × (mark_at node.now i ≡ Mark.Open)) }
    ensures none { IfNone result (¬ (mark_at node.now number ≡ Mark.Open)) }
{
    if number >= node.len() as u128 {
        return None;
    }
    let i = number as usize;
    if node.mark(i) != Mark::Open {
        return None;
    }
    Some(i)
}

fn is_branch(shape: Option<Shape>) -> bool
    ensures { IsTrue result ↔ (shape ≡ Some Shapes.Branch) }
{
    matches!(shape, Some(Shape::Branch))
}

impl TreeProgress {
    /// The tree of `n` open products is to come.
    pub fn new(alloc: Global, n: usize) -> Result<TreeProgress, NoMemory>
        ensures products { IfOk result (λ s. products_of s ≡ n) }
        ensures phase { IfOk result (λ s. phase_of s ≡ in_trees (open_node n ∷ [])) }
    {
        let path = Path::new(alloc, n)?;
        Ok(TreeProgress {
            path,
            stage: Stage::Tree,
        })
    }

    /// Waits for nothing from now on.
    pub fn refuse(&mut self)
        ensures phase { phase_of self.new ≡ refused }
        ensures products { products_of self.new ≡ products_of self.old }
    {
        self.stage = Stage::Refused;
    }

    /// Whether everything has come.
    pub fn is_at_end(&self) -> bool
        ensures { IsTrue result ↔ (phase_of self.now ≡ at_end) }
    {
        self.stage == Stage::End
    }

    /// How many branches are open: one for each product that the next line's node settles.
    pub fn frames(&self) -> usize
        ensures branches { BranchesOpen (phase_of self.now) result }
        ensures most { result ≤ products_of self.now }
    {
        self.path.frames()
    }

    fn take_end(&mut self, shape: Option<Shape>)
        ensures leads { EndsBy shape (phase_of self.new) }
        ensures products { products_of self.new ≡ products_of self.old }
    {
        if !matches!(shape, Some(Shape::End)) {
            return self.refuse();
        }
        self.stage = Stage::End;
    }

    fn take_branch(&mut self, number: u128)
        requires stage { self.old.stage ≡ Stage.Tree }
        requires node { 0 < length self.old.path.nodes }
        ensures leads { BranchesBy number self.old.path.nodes (phase_of self.new) }
        ensures products { products_of self.new ≡ products_of self.old }
    {
        match open_product(self.path.node(), number) {
            Some(i) => self.path.branch(i),
            None => self.refuse(),
        }
    }

    fn take_leaf<L: Leaves>(
        &mut self,
        leaves: &mut L,
        line: &[u8],
        shape: Option<Shape>,
        numbers: &Wide,
    )
        requires stage { self.old.stage ≡ Stage.Tree }
        requires node { 0 < length self.old.path.nodes }
        requires each { L.products leaves.old ≡ products_of self.old }
        requires read { IsRead line.now shape numbers.now.items }
        ensures leads { LeavesBy (L.Closes leaves.old) line.now self.old.path.nodes (phase_of self.new) }
        ensures products { products_of self.new ≡ products_of self.old }
        ensures same { leaves.new ≡ leaves.old }
    {
        if !leaves.close(self.path.node(), line, shape, numbers) {
            return self.refuse();
        }
        self.path.close();
    }

    fn take_tree<L: Leaves>(
        &mut self,
        leaves: &mut L,
        line: &[u8],
        shape: Option<Shape>,
        numbers: &Wide,
    )
        requires stage { self.old.stage ≡ Stage.Tree }
        requires each { L.products leaves.old ≡ products_of self.old }
        requires read { IsRead line.now shape numbers.now.items }
        ensures leads { TreeLeads (L.Closes leaves.old) (phase_of self.old) (phase_of self.new) line.now }
        ensures products { products_of self.new ≡ products_of self.old }
        ensures same { leaves.new ≡ leaves.old }
    {
        if self.path.is_done() {
            return self.take_end(shape);
        }
        if is_branch(shape) {
            let number = *numbers.get(0);
            return self.take_branch(number);
        }
        self.take_leaf(leaves, line, shape, numbers)
    }

    /// Takes the next line. It is read into `numbers`.
    pub fn take<L: Leaves>(&mut self, leaves: &mut L, line: &[u8], numbers: &mut Wide)
        requires each { L.products leaves.old ≡ products_of self.old }
        requires short { length line.now ≤ MOST_LINE }
        requires room { HasNumbers numbers.old }
        ensures leads { TreeLeads (L.Closes leaves.old) (phase_of self.old) (phase_of self.new) line.now }
        ensures products { products_of self.new ≡ products_of self.old }
        ensures same { leaves.new ≡ leaves.old }
        ensures room { HasNumbers numbers.new }
    {
        let shape = read_line(line, numbers);
        match self.stage {
            Stage::Tree => self.take_tree(leaves, line, shape, numbers),
            Stage::End | Stage::Refused => self.refuse(),
        }
    }
}

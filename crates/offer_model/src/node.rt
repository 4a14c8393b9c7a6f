//! Nodes: what the branches above have settled about each product.
ghost use Rattle.std.specs.Prelude.{◌≡◌, ◌<◌, length, slice_set, IfOk};
ghost use Rattle.offer_model.specs.Nodes.{mark_at, open_node, first_open};

use crate::memory::NoMemory;
use std::alloc::Global;
use std::marker::Model;

/// What a node says of a product.
#[derive(Clone, Copy, Debug, PartialEq, Eq)]
pub enum Mark {
    /// It is offered.
    In,
    /// It isn't offered.
    Out,
    /// Either may be.
    Open,
}

/// A node of a search or of a certificate's tree: a mark for each product, in catalogue order.
#[derive(Debug, Drop)]
pub struct Node {
    marks: Vec<Mark>,
}

impl Model for Node {
    ghost use Rattle.std.specs.Prelude.{List};
    ghost use Rattle.offer_model.specs.declared.node.Mark.{Mark};

    ghost Value = { List Mark };

    ghost view = { λ node. node.marks.items };
}

impl Node {
    /// The node of `n` products that are all open.
    pub fn open(alloc: Global, n: usize) -> Result<Node, NoMemory>
        ensures { IfOk result (λ node. node ≡ open_node n) }
    {
        let marks = vec![in alloc; Mark::Open; n]?;
        Ok(Node { marks })
    }

    /// The number of products.
    pub fn len(&self) -> usize
        ensures { result ≡ length self.now }
    {
        self.marks.len()
    }

    /// The mark of product `i`.
    pub fn mark(&self, i: usize) -> Mark
        requires { i < length self.now }
        ensures { result ≡ mark_at self.now i }
    {
        self.marks[i]
    }

    /// Marks product `i`.
    pub fn set(&mut self, i: usize, mark: Mark)
        requires { i < length self.old }
        ensures { self.new ≡ slice_set self.old i mark }
    {
        self.marks[i] = mark;
    }

    #[tactic(auto, using(crate::proofs::NodeLemmas::first_open_at, crate::proofs::NodeLemmas::first_open_none))]
    /// The first Open product, in catalogue order.
    pub fn first_open(&self) -> Option<usize>
        ensures { result ≡ first_open self.now }
    {
        for i in 0..self.len() {
            if self.mark(i) == Mark::Open {
                return Some(i);
            }
        }
        None
    }

    /// Becomes equal to another node.
    pub fn copy_from(&mut self, other: &Node)
        requires { length self.old ≡ length other.now }
        ensures { self.new ≡ other.now }
    {
        self.marks.copy_from_slice(&other.marks);
    }
}

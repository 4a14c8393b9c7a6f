//! The path through a tree: a node, and the branches above it.
ghost use Rattle.std.specs.Prelude.{◌≡◌, ◌+◌, ◌<◌, ◌≤◌, ◌↔◌, false, not, drop, [], ◌∷◌, reverse, length, slice_set, vec_capacity, IfOk, IsTrue};
ghost use Rattle.offer_model.specs.Nodes.{mark_at, open_node, opens};
ghost use Rattle.proof_tree.specs.Paths.{FramesFit, waiting, other_sides, first_of, branched};

use offer_model::{Mark, NoMemory, Node};
use std::alloc::Global;
use std::marker::Model;

/// A branch above the node: its product, and whether the node is on the side where it is In. The node alone doesn't tell:
/// a product that is Out may have been Out before.
#[derive(Clone, Copy)]
pub(crate) struct Frame {
    product: usize,
    inside: bool,
}

/// The nodes of a tree that are still to come, in pre-order: one node, and the branches above it. Contracts see how many
/// products there are, and these nodes.
#[derive(Drop)]
pub struct Path {
    node: Node,
    frames: Vec<Frame>,
    done: bool,
}

impl Model for Path {
    ghost use Rattle.std.specs.Prelude.{reverse, vec_capacity, length};
    ghost use Rattle.proof_tree.specs.Paths.{PathData, waiting, IsPath};

    ghost Value = { PathData };

    ghost view = { λ s. record { products = length s.node; nodes = waiting s.done s.node (reverse s.frames.items) } };

    ghost invariant = { λ s. IsPath s.done s.node s.frames.items (vec_capacity s.frames) };
}

impl Path {
    /// The path at the node of `n` open products, with room for all branches below it.
    pub fn new(alloc: Global, n: usize) -> Result<Path, NoMemory>
        ensures products { IfOk result (λ path. path.products ≡ n) }
        ensures nodes { IfOk result (λ path. path.nodes ≡ open_node n ∷ []) }
    {
        let node = Node::open(alloc, n)?;
        let frames = Vec::with_capacity(alloc, n)?;
        Ok(Path {
            node,
            frames,
            done: false,
        })
    }

    /// Whether every tree has come.
    pub fn is_done(&self) -> bool
        ensures { IsTrue result ↔ (length self.now.nodes ≡ 0) }
    {
        self.done
    }

    /// The first node.
    pub fn node(&self) -> &Node
        requires { 0 < length self.now.nodes }
        ensures node { result.now ≡ first_of self.now.nodes }
        ensures each { length result.now ≡ self.now.products }
    {
        &self.node
    }

    /// How many products there are.
    pub fn products(&self) -> usize
        ensures { result ≡ self.now.products }
    {
        self.node.len()
    }

    /// How many branches are open: one for each product that the first node settles.
    pub fn frames(&self) -> usize
        ensures depth { result + opens (first_of self.now.nodes) ≡ length (first_of self.now.nodes) }
        ensures most { result ≤ self.now.products }
    {
        self.frames.len()
    }

    /// A branch on a product that is Open at the first node: the two nodes below it come in its place.
    pub fn branch(&mut self, i: usize)
        requires node { 0 < length self.old.nodes }
        requires open { mark_at (first_of self.old.nodes) i ≡ Mark.Open }
        ensures nodes { self.new.nodes ≡ branched i self.old.nodes }
        ensures products { self.new.products ≡ self.old.products }
    {
        let frame = Frame {
            product: i,
            inside: true,
        };
        self.frames.push_reserved(frame);
        self.node.set(i, Mark::In);
    }

    /// The first node's tree has come.
    pub fn close(&mut self)
        requires { 0 < length self.old.nodes }
        ensures nodes { self.new.nodes ≡ drop 1 self.old.nodes }
        ensures products { self.new.products ≡ self.old.products }
    {
        self.done = !turn(&mut self.node, &mut self.frames);
    }
}

/// Goes to the side Out of the lowest branch that is on its side In, and says whether there was one.
fn turn(node: &mut Node, frames: &mut Vec<Frame>) -> bool
    requires { FramesFit node.old (reverse frames.old.items) }
    ensures fits { FramesFit node.new (reverse frames.new.items) }
    ensures waiting { waiting (not result) node.new (reverse frames.new.items)
        ≡ other_sides node.old (reverse frames.old.items) }
    ensures none { result ≡ false → length frames.new.items ≡ 0 }
    ensures length { length node.new ≡ length node.old }
    ensures room { vec_capacity frames.new ≡ vec_capacity frames.old }
{
    for k in (0..frames.len()).rev() {
        let frame = frames[k];
        if frame.inside {
            node.set(frame.product, Mark::Out);
            frames[k] = Frame {
                product: frame.product,
                inside: false,
            };
            return true;
        }
        node.set(frame.product, Mark::Open);
        frames.pop();
    }
    false
}

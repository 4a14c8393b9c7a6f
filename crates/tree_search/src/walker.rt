//! A depth-first search, one node at a time.
ghost use Rattle.std.specs.Prelude.{◌≡◌, ◌≢◌, ◌↔◌, ◌+◌, ◌<◌, ◌≤◌, ◌++◌, [], ◌∷◌, length, slice_set, vec_len, vec_capacity, option_copied, Some, None, IfOk, IsTrue};
ghost use Rattle.offer_model.specs.declared.node.Mark.TheVariants.{In, Out};
ghost use Rattle.offer_model.specs.Nodes.{open_node};
ghost use Rattle.tree_search.specs.Tasks.{tasks_of, task_of};
ghost use Rattle.tree_search.specs.Turns.{with_stack, Turn, IsSound, HasBoundInRange};
ghost use Rattle.tree_search.specs.Rooms.{AllLong, best_of};
ghost use Rattle.tree_search.specs.Gives.{IsGiven};

use crate::goal::Goal;
use crate::pruning::{is_dropped, meet};
use crate::tasks::{depth_of, next_of, settle_task};
use limit_rules::fill_out;
use offer_model::{Assortment, Mark, NoMemory, Node};
use std::alloc::Global;
use std::marker::Model;

/// Searches depth first: a stack of nodes that are still to be taken, and the best feasible assortment so far.
///
/// It takes all its memory when it is made. Nodes that aren't on the stack wait in `free`.
#[derive(Drop)]
pub struct Walker {
    stack: Vec<Node>,
    free: Vec<Node>,
    root: Node,
    products: usize,
    found: bool,
    best: Assortment,
    scratch: Assortment,
}

impl Model for Walker {
    ghost use Rattle.std.specs.Prelude.{◌≡◌, ◌+◌, ◌≤◌, length, reverse, vec_len, vec_capacity};
    ghost use Rattle.offer_model.specs.Nodes.{open_node};
    ghost use Rattle.tree_search.specs.Turns.{Walk};
    ghost use Rattle.tree_search.specs.Rooms.{AllLong, Rooms, walk_of};

    ghost Value = { Walk };

    ghost view = { λ w. walk_of w.stack.items w.found w.best w.products };

    ghost invariant = { λ w. AllLong w.products w.stack.items × AllLong w.products w.free.items
        × (vec_len w.stack + vec_len w.free ≡ w.products + 1)
        × (w.products + 1 ≤ vec_capacity w.stack) × (w.products + 1 ≤ vec_capacity w.free)
        × Rooms w.products (reverse w.stack.items)
        × (w.root ≡ open_node w.products) × (length w.best ≡ w.products) × (length w.scratch ≡ w.products) };
}

/// Puts the node with the product Out on the stack, and on it the node with the product In.
fn push_divided(stack: &mut Vec<Node>, free: &mut Vec<Node>, node: Node, product: usize)
    requires product { product < length node }
    requires long { AllLong (length node) free.old.items }
    requires spare { 1 ≤ vec_len free.old }
    requires room { vec_len stack.old + 2 ≤ vec_capacity stack.old }
    ensures stack { stack.new.items ≡ (stack.old.items ++ slice_set node product Out ∷ []) ++ slice_set node product In ∷ [] }
    ensures free { AllLong (length node) free.new.items }
    ensures lengths { (vec_len free.new + 1 ≡ vec_len free.old) × (vec_len stack.new ≡ vec_len stack.old + 2) }
    ensures capacities { (vec_capacity free.new ≡ vec_capacity free.old) × (vec_capacity stack.new ≡ vec_capacity stack.old) }
{
    let mut outside = node;
    let Some(mut inside) = free.pop() else {
        unreachable!();
    };
    inside.copy_from(&outside);
    outside.set(product, Mark::Out);
    inside.set(product, Mark::In);
    stack.push_reserved(outside);
    stack.push_reserved(inside);
}

/// A walker with an empty stack and room for `n + 1` nodes.
fn with_room(alloc: Global, n: usize, found: bool, best: Assortment) -> Result<Walker, NoMemory>
    requires { length best ≡ n }
    ensures { IfOk result (λ w. w ≡ record { stack = []; best = best_of found best; products = n }) }
{
    let Some(nodes) = n.checked_add(1) else {
        return Err(NoMemory);
    };
    let stack = Vec::with_capacity(alloc, nodes)?;
    let mut free = Vec::with_capacity(alloc, nodes)?;
    for _made in 0..nodes {
        free.push_reserved(Node::open(alloc, n)?);
    }
    Ok(Walker {
        stack,
        free,
        root: Node::open(alloc, n)?,
        products: n,
        found,
        best,
        scratch: Assortment::empty(alloc, n)?,
    })
}

impl Walker {
    /// A walker for goals of `n` products. It takes room for `n + 1` nodes, and its other calls take no memory.
    pub fn reserve(alloc: Global, n: usize) -> Result<Walker, NoMemory>
        ensures { IfOk result (λ w. w ≡ record { stack = []; best = None; products = n }) }
    {
        let best = Assortment::empty(alloc, n)?;
        with_room(alloc, n, false, best)
    }

    /// The same, which holds the assortment as its best.
    pub fn reserve_with(alloc: Global, best: Assortment) -> Result<Walker, NoMemory>
        ensures { IfOk result (λ w. w ≡ record { stack = []; best = Some best; products = length best }) }
    {
        let n = best.len();
        with_room(alloc, n, true, best)
    }

    /// How many products the walker's goals have.
    pub(crate) fn products(&self) -> usize
        ensures number { result ≡ self.now.products }
        ensures sound { IsSound self.now }
    {
        self.products
    }

    /// Whether the stack is empty.
    pub fn idle(&self) -> bool
        ensures empty { IsTrue result ↔ (self.now.stack ≡ []) }
        ensures sound { IsSound self.now }
    {
        self.stack.is_empty()
    }

    /// The best assortment, or `None` where no turn has met one.
    pub fn best(&self) -> Option<&Assortment>
        ensures { option_copied result ≡ self.now.best }
    {
        if !self.found {
            return None;
        }
        Some(&self.best)
    }

    pub(crate) fn into_best(self) -> Option<Assortment>
        ensures { result ≡ self.best }
    {
        let Walker { found, best, .. } = self;
        if !found {
            return None;
        }
        Some(best)
    }

    /// The number of nodes on the stack.
    pub fn size(&self) -> usize
        ensures { result ≡ length self.now.stack }
    {
        self.stack.len()
    }

    /// Gives its bottom node, of which most is still to come, to a walker whose stack is empty. The bests stay.
    pub fn give(&mut self, other: &mut Walker)
        requires products { self.old.products ≡ other.old.products }
        requires some { self.old.stack ≢ [] }
        requires idle { other.old.stack ≡ [] }
        ensures given { IsGiven self.old other.old self.new other.new }
        ensures sound { IsSound self.new × IsSound other.new }
    {
        let node = self.stack.remove(0);
        let Some(spare) = other.free.pop() else {
            unreachable!();
        };
        self.free.push_reserved(spare);
        other.stack.push_reserved(node);
    }

    /// Puts a node on the stack, which a search begins with.
    pub(crate) fn begin(&mut self, root: &Node)
        requires long { length root.now ≡ self.old.products }
        requires idle { self.old.stack ≡ [] }
        ensures { self.new ≡ with_stack self.old (root.now ∷ []) }
    {
        let Some(mut node) = self.free.pop() else {
            unreachable!();
        };
        node.copy_from(root);
        self.stack.push_reserved(node);
    }

    /// Puts the node of a task on the stack.
    pub fn start<T: Goal>(&mut self, goal: &T, task: u64)
        requires goal { self.old.products ≡ (T.rules goal.now).products }
        requires idle { self.old.stack ≡ [] }
        requires task { task < tasks_of self.old.products }
        ensures task { self.new ≡ with_stack self.old (task_of (T.rules goal.now) task ∷ []) }
        ensures sound { IsSound self.new }
    {
        let Some(mut node) = self.free.pop() else {
            unreachable!();
        };
        node.copy_from(&self.root);
        settle_task(goal, &mut node, depth_of(self.products), task);
        self.stack.push_reserved(node);
    }

    /// Takes one node off the stack, and tells whether the best changed. `seen` is a value that some feasible assortment
    /// is known to reach, or the least number.
    pub fn work<T: Goal>(&mut self, goal: &mut T, seen: i128) -> bool
        requires goal { self.old.products ≡ (T.rules goal.old).products }
        requires some { self.old.stack ≢ [] }
        ensures turn { Turn (T.rules goal.old) seen self.old self.new }
        ensures changed { IsTrue result ↔ (self.new.best ≢ self.old.best) }
        ensures was_sound { IsSound self.old }
        ensures sound { IsSound self.new }

        // The bound that was compared is a number of 128 bits.
        ensures range { HasBoundInRange (T.rules goal.old) self.old.stack }
        ensures same { goal.new ≡ goal.old }
    {
        let Some(node) = self.stack.pop() else {
            unreachable!();
        };
        if is_dropped(goal, self.found, &self.best, &mut self.scratch, &node, seen) {
            self.free.push_reserved(node);
            return false;
        }
        match next_of(goal, &node) {
            None => {
                fill_out(&node, &mut self.scratch);
                self.free.push_reserved(node);
                let changed = meet(goal, self.found, &mut self.best, &self.scratch);
                self.found |= changed;
                changed
            }
            Some(product) => {
                push_divided(&mut self.stack, &mut self.free, node, product);
                false
            }
        }
    }
}

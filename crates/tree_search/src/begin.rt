//! A first assortment, found by one dive.
ghost use Rattle.std.specs.Prelude.{◌≡◌, [], ◌∷◌, None, IfOk};
ghost use Rattle.tree_search.specs.Goals.{IsFoundOf};
ghost use Rattle.offer_model.specs.Nodes.{open_node};

use crate::goal::Goal;
use crate::walker::Walker;
use offer_model::{Assortment, NoMemory, Node};
use std::alloc::Global;

/// Works until there is a best, or the stack is empty.
fn dive<T: Goal>(walker: &mut Walker, goal: &mut T)
    requires goal { walker.old.products ≡ (T.rules goal.old).products }
    requires whole { walker.old.stack ≡ open_node walker.old.products ∷ [] }
    requires none { walker.old.best ≡ None }
    ensures found { IsFoundOf (T.rules goal.old) walker.new.best }
    ensures same { goal.new ≡ goal.old }
{
    while !walker.idle() {
        if walker.work(goal, i128::MIN) {
            return;
        }
    }
}

/// The feasible assortment that a depth-first search meets first; `None` exactly where none is feasible.
pub fn greedy<T: Goal>(alloc: Global, goal: &mut T) -> Result<Option<Assortment>, NoMemory>
    ensures found { IfOk result (λ best. IsFoundOf (T.rules goal.old) best) }
    ensures same { goal.new ≡ goal.old }
{
    let count = goal.products();
    let root = Node::open(alloc, count)?;
    let mut walker = Walker::reserve(alloc, count)?;
    walker.begin(&root);
    dive(&mut walker, goal);
    Ok(walker.into_best())
}

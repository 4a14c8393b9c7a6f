//! Which nodes are dropped, and which assortment becomes the best.
ghost use Rattle.std.specs.Prelude.{◌≡◌, ◌↔◌, ◌≤ℤ◌, ◌||◌, length, IsTrue};
ghost use Rattle.tree_search.specs.Turns.{IsBeaten, IsDropped, BecomesBest, IsBestAfter, least};
ghost use Rattle.tree_search.specs.Rooms.{best_of};

use crate::goal::Goal;
use limit_rules::fill_out;
use offer_model::{Assortment, Node};

/// Whether the best shows that no completion is better. The bound is the node's.
fn is_beaten<T: Goal>(
    goal: &T,
    found: bool,
    best: &Assortment,
    scratch: &mut Assortment,
    node: &Node,
    bound: i128,
) -> bool
    requires best { length best.now ≡ (T.rules goal.now).products }
    requires scratch { length scratch.old ≡ (T.rules goal.now).products }
    requires node { length node.now ≡ (T.rules goal.now).products }
    requires bound { bound ≡ (T.rules goal.now).bound node.now }
    ensures beaten { IsTrue result ↔ IsBeaten (T.rules goal.now) (best_of found best.now) node.now }
    ensures scratch { length scratch.new ≡ length scratch.old }
{
    if !found {
        return false;
    }
    let value = goal.value(best);
    if bound != value {
        return bound < value;
    }
    fill_out(node, scratch);
    !scratch.before(best)
}

/// Whether the node is dropped. It asks for a bound at most once.
pub fn is_dropped<T: Goal>(
    goal: &mut T,
    found: bool,
    best: &Assortment,
    scratch: &mut Assortment,
    node: &Node,
    seen: i128,
) -> bool
    requires best { length best.now ≡ (T.rules goal.old).products }
    requires scratch { length scratch.old ≡ (T.rules goal.old).products }
    requires node { length node.now ≡ (T.rules goal.old).products }
    ensures dropped { IsTrue result ↔ IsDropped (T.rules goal.old) seen (best_of found best.now) node.now }
    ensures range { ((T.rules goal.old).Clashing node.now → ⊥) → least ≤ℤ (T.rules goal.old).bound node.now }
    ensures scratch { length scratch.new ≡ length scratch.old }
    ensures same { goal.new ≡ goal.old }
{
    if goal.clash(node) {
        return true;
    }
    let bound = goal.bound(node);
    if bound < seen {
        return true;
    }
    is_beaten(goal, found, best, scratch, node, bound)
}

/// Whether there is no best yet, or the assortment is better.
fn becomes_best<T: Goal>(goal: &T, found: bool, best: &Assortment, x: &Assortment) -> bool
    requires best { length best.now ≡ (T.rules goal.now).products }
    requires long { length x.now ≡ (T.rules goal.now).products }
    ensures { IsTrue result ↔ BecomesBest (T.rules goal.now) x.now (best_of found best.now) }
{
    if !found {
        return true;
    }
    let old = goal.value(best);
    let new = goal.value(x);
    if old != new {
        return old < new;
    }
    x.before(best)
}

/// Puts the assortment in the best's place, where it becomes the best, and tells whether it did.
pub fn meet<T: Goal>(goal: &T, found: bool, best: &mut Assortment, x: &Assortment) -> bool
    requires best { length best.old ≡ (T.rules goal.now).products }
    requires long { length x.now ≡ (T.rules goal.now).products }
    ensures becomes { IsTrue result ↔ BecomesBest (T.rules goal.now) x.now (best_of found best.old) }
    ensures best { IsBestAfter (T.rules goal.now) x.now (best_of found best.old) (best_of (found || result) best.new) }
    ensures long { length best.new ≡ length best.old }
{
    if !becomes_best(goal, found, best, x) {
        return false;
    }
    best.copy_from(x);
    true
}

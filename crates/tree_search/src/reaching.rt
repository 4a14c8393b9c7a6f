//! A search for what reaches a floor, on one walker, from a root that each feasible assortment completes.
ghost use Rattle.std.specs.Prelude.{◌≡◌, ◌≢◌, [], List, Bool, IfOk, length};
ghost use Rattle.std.specs.Option.{option_copied};
ghost use Rattle.offer_model.specs.Nodes.{Completes};
ghost use Rattle.tree_search.specs.Goals.{IsFeasibleFor, IsGreatestFrom};
ghost use Rattle.tree_search.specs.Turns.{Turn, IsSound};
ghost use Rattle.tree_search.specs.Progress.{Matches, HasBy, IsFeasibleBest, IsReached};

use crate::goal::Goal;
use crate::walker::Walker;
use offer_model::{Assortment, NoMemory, Node};
use std::alloc::Global;

/// What a node's bound must reach for the node to be taken: the floor, and more than the value of the walker's best.
fn wanted<T: Goal>(walker: &Walker, goal: &T, floor: i128) -> i128
    requires goal { walker.now.products ≡ (T.rules goal.now).products }
    requires best { IsFeasibleBest (T.rules goal.now) walker.now.best }
    ensures { IsReached (T.rules goal.now) floor walker.now.best result }
{
    let Some(best) = walker.best() else {
        return floor;
    };
    let more = goal.value(best).saturating_add(1);
    if more < floor { floor } else { more }
}

/// One turn, with what is wanted seen. Answers what is wanted after it.
fn turn<T: Goal>(walker: &mut Walker, goal: &mut T, floor: i128, seen: i128) -> i128
    requires goal { walker.old.products ≡ (T.rules goal.old).products }
    requires some { walker.old.stack ≢ [] }
    requires best { IsFeasibleBest (T.rules goal.old) walker.old.best }
    requires reached { IsReached (T.rules goal.old) floor walker.old.best seen }
    ensures turn { Turn (T.rules goal.old) seen walker.old walker.new }
    ensures sound { IsSound walker.old }
    ensures reached { IsReached (T.rules goal.old) floor walker.new.best result }
    ensures same { goal.new ≡ goal.old }
{
    if !walker.work(goal, seen) {
        return seen;
    }
    wanted(walker, goal, floor)
}

/// Works until the stack is empty.
fn run<T: Goal>(walker: &mut Walker, goal: &mut T, floor: i128)
    requires goal { walker.old.products ≡ (T.rules goal.old).products }
    requires best { IsFeasibleBest (T.rules goal.old) walker.old.best }
    ensures empty { walker.new.stack ≡ [] }
    ensures matched { (y : List Bool) → (T.rules goal.old).Feasible y
        → HasBy (Matches (T.rules goal.old) floor) walker.old y → HasBy (Matches (T.rules goal.old) floor) walker.new y }
    ensures best { IsFeasibleBest (T.rules goal.old) walker.new.best }
    ensures products { walker.new.products ≡ walker.old.products }
    ensures same { goal.new ≡ goal.old }
{
    let mut seen = wanted(walker, goal, floor);
    while !walker.idle() {
        seen = turn(walker, goal, floor, seen);
    }
}

/// A walker that has done nothing, and begins with an assortment where there is one.
fn walker_from<T: Goal>(
    alloc: Global,
    goal: &T,
    first: Option<&Assortment>,
) -> Result<Walker, NoMemory>
    requires { IsFeasibleBest (T.rules goal.now) (option_copied first) }
    ensures stack { IfOk result (λ w. w.stack ≡ []) }
    ensures best { IfOk result (λ w. IsFeasibleBest (T.rules goal.now) w.best) }
    ensures products { IfOk result (λ w. w.products ≡ (T.rules goal.now).products) }
{
    let Some(x) = first else {
        let walker = Walker::reserve(alloc, goal.products())?;
        return Ok(walker);
    };
    let walker = Walker::reserve_with(alloc, x.copy(alloc)?)?;
    Ok(walker)
}

/// The best, where it reaches the floor.
fn reaching<T: Goal>(goal: &T, best: Option<Assortment>, floor: i128) -> Option<Assortment>
    requires best { IsFeasibleBest (T.rules goal.now) best }
    requires matched { (y : List Bool) → IsFeasibleFor (T.rules goal.now) y → Matches (T.rules goal.now) floor best y }
    ensures { IsGreatestFrom (T.rules goal.now) floor result }
{
    let x = best?;
    if goal.value(&x) < floor {
        return None;
    }
    Some(x)
}

/// A feasible assortment of greatest value, whichever of equals is met first, where one reaches the floor; else `None`. Each
/// feasible assortment must complete the root. It begins with a feasible assortment where one is at hand, and drops the nodes
/// that could only equal what is found, or don't reach the floor.
pub fn search_from<T: Goal>(
    alloc: Global,
    goal: &mut T,
    root: &Node,
    first: Option<&Assortment>,
    floor: i128,
) -> Result<Option<Assortment>, NoMemory>
    requires long { length root.now ≡ (T.rules goal.old).products }
    requires root { (y : List Bool) → (T.rules goal.old).Feasible y → Completes root.now y }
    requires first { IsFeasibleBest (T.rules goal.old) (option_copied first) }
    ensures greatest { IfOk result (λ best. IsGreatestFrom (T.rules goal.old) floor best) }
    ensures same { goal.new ≡ goal.old }
{
    let mut walker = walker_from(alloc, goal, first)?;
    walker.begin(root);
    run(&mut walker, goal, floor);
    Ok(reaching(goal, walker.into_best(), floor))
}

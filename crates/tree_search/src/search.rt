//! A search from the first task to the last on one walker.
ghost use Rattle.std.specs.Prelude.{◌≡◌, ◌≢◌, [], List, Bool, IfOk};
ghost use Rattle.tree_search.specs.Goals.{IsTop};
ghost use Rattle.tree_search.specs.Turns.{Turn, IsSound, HasBoundInRange};
ghost use Rattle.tree_search.specs.Progress.{Has, IsFeasibleBest, IsOwn};

use crate::begin::greedy;
use crate::goal::Goal;
use crate::tasks::tasks_of;
use crate::walker::Walker;
use offer_model::{Assortment, NoMemory};
use std::alloc::Global;

/// What a node's bound must reach for the node to be taken: the value of the walker's best, or the least number where there
/// is none.
fn wanted<T: Goal>(walker: &Walker, goal: &T) -> i128
    requires goal { walker.now.products ≡ (T.rules goal.now).products }
    requires best { IsFeasibleBest (T.rules goal.now) walker.now.best }
    ensures { IsOwn (T.rules goal.now) walker.now.best result }
{
    match walker.best() {
        Some(best) => goal.value(best),
        None => i128::MIN,
    }
}

/// One turn, with what is wanted seen. Answers what is wanted after it.
fn turn<T: Goal>(walker: &mut Walker, goal: &mut T, seen: i128) -> i128
    requires goal { walker.old.products ≡ (T.rules goal.old).products }
    requires some { walker.old.stack ≢ [] }
    requires best { IsFeasibleBest (T.rules goal.old) walker.old.best }
    requires own { IsOwn (T.rules goal.old) walker.old.best seen }
    ensures turn { Turn (T.rules goal.old) seen walker.old walker.new }
    ensures sound { IsSound walker.old }
    ensures range { HasBoundInRange (T.rules goal.old) walker.old.stack }
    ensures own { IsOwn (T.rules goal.old) walker.new.best result }
    ensures same { goal.new ≡ goal.old }
{
    if !walker.work(goal, seen) {
        return seen;
    }
    wanted(walker, goal)
}

/// Works until the stack is empty.
fn run<T: Goal>(walker: &mut Walker, goal: &mut T)
    requires goal { walker.old.products ≡ (T.rules goal.old).products }
    requires best { IsFeasibleBest (T.rules goal.old) walker.old.best }
    ensures empty { walker.new.stack ≡ [] }
    ensures kept { (y : List Bool) → (T.rules goal.old).Feasible y → Has (T.rules goal.old) walker.old y → Has (T.rules goal.old) walker.new y }
    ensures best { IsFeasibleBest (T.rules goal.old) walker.new.best }
    ensures products { walker.new.products ≡ walker.old.products }
    ensures same { goal.new ≡ goal.old }
{
    let mut seen = wanted(walker, goal);
    while !walker.idle() {
        seen = turn(walker, goal, seen);
    }
}

/// The feasible assortment of greatest value, and of equals the one that is before the others; `None` exactly where no
/// assortment is feasible. It works the tasks in order on one walker, whose best is at first the one that a dive finds.
pub fn search_alone<T: Goal>(alloc: Global, goal: &mut T) -> Result<Option<Assortment>, NoMemory>
    ensures top { IfOk result (λ best. IsTop (T.rules goal.old) best) }
    ensures same { goal.new ≡ goal.old }
{
    let Some(first) = greedy(alloc, goal)? else {
        return Ok(None);
    };
    let mut walker = Walker::reserve_with(alloc, first)?;
    for task in 0..tasks_of(goal.products()) {
        walker.start(goal, task);
        run(&mut walker, goal);
    }
    Ok(walker.into_best())
}

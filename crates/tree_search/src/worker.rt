//! A worker of a world: a walker, and the numbers that it saw and told.
ghost use Rattle.std.specs.Prelude.{◌≡◌, ◌≢◌, ◌↔◌, ◌<◌, [], ◌∷◌, List, Bool, Some, length, option_copied, MatchOption, IfOk, OnOk, OnErr, IsTrue, All};
ghost use Rattle.tree_search.specs.Tasks.{tasks_of, task_of};
ghost use Rattle.tree_search.specs.Turns.{with_products};
ghost use Rattle.tree_search.specs.Worlds.{new_worker, with_nodes, with_seen, with_told, IsTurned, GivesOrNot, GivesBetween, IsWorkerOf};

use crate::goal::Goal;
use crate::walker::Walker;
use offer_model::{Assortment, NoMemory};
use std::alloc::Global;
use std::marker::Model;

/// One worker: its walker, and the numbers that it saw and told last.
#[derive(Drop)]
pub struct Worker {
    walker: Walker,
    seen: i128,
    told: i128,
}

impl Model for Worker {
    ghost use Rattle.tree_search.specs.Worlds.{WorkerData};

    ghost Value = { WorkerData };

    ghost view = { λ w. record { stack = w.walker.stack; best = w.walker.best; seen = w.seen; told = w.told } };
}

/// Makes a walker that has no nodes one for goals of `n` products.
fn fit(alloc: Global, walker: &mut Walker, n: usize) -> Result<(), NoMemory>
    requires idle { walker.old.stack ≡ [] }
    requires best { (x : List Bool) → walker.old.best ≡ Some x → length x ≡ n }
    ensures fits { OnOk result (walker.new ≡ with_products walker.old n) }
    ensures unchanged { OnErr result (walker.new ≡ walker.old) }
{
    if walker.products() != n {
        *walker = Walker::reserve(alloc, n)?;
    }
    Ok(())
}

impl Worker {
    /// A worker that has done nothing.
    pub fn reserve(alloc: Global) -> Result<Worker, NoMemory>
        ensures { IfOk result (λ u. u ≡ new_worker) }
    {
        Ok(Worker {
            walker: Walker::reserve(alloc, 0)?,
            seen: 0,
            told: 0,
        })
    }

    /// Whether the worker has no node.
    pub fn idle(&self) -> bool
        ensures { IsTrue result ↔ (self.now.stack ≡ []) }
    {
        self.walker.idle()
    }

    /// The best assortment, or `None` where the worker has none.
    pub fn best(&self) -> Option<&Assortment>
        ensures { option_copied result ≡ self.now.best }
    {
        self.walker.best()
    }

    /// Puts the node of the task on the stack.
    pub fn take<T: Goal>(&mut self, alloc: Global, goal: &T, task: u64) -> Result<(), NoMemory>
        requires idle { self.old.stack ≡ [] }
        requires task { task < tasks_of (T.rules goal.now).products }
        requires products { IsWorkerOf (T.rules goal.now).products self.old }
        ensures taken { OnOk result (self.new ≡ with_nodes (task_of (T.rules goal.now) task ∷ []) self.old) }
        ensures unchanged { OnErr result (self.new ≡ self.old) }
    {
        fit(alloc, &mut self.walker, goal.products())?;
        self.walker.start(goal, task);
        Ok(())
    }

    /// Sees the shared number.
    pub fn look(&mut self, shared: i128)
        ensures { self.new ≡ with_seen shared self.old }
    {
        self.seen = shared;
    }

    /// Takes the top node, where there is one.
    pub fn work<T: Goal>(&mut self, goal: &mut T)
        requires products { IsWorkerOf (T.rules goal.old).products self.old }
        ensures turned { self.old.stack ≢ [] → IsTurned (T.rules goal.old) self.old self.new }
        ensures idle { self.old.stack ≡ [] → self.new ≡ self.old }
        ensures same { goal.new ≡ goal.old }
    {
        if !self.walker.idle() {
            self.walker.work(goal, self.seen);
        }
    }

    /// The value of the best, which is told now.
    pub fn tell<T: Goal>(&mut self, goal: &T) -> Option<i128>
        requires products { IsWorkerOf (T.rules goal.now).products self.old }
        ensures { MatchOption result ((self.old.best ≡ None) × (self.new ≡ self.old))
            (λ z. (x : List Bool) × (self.old.best ≡ Some x) × (z ≡ (T.rules goal.now).value x) × (self.new ≡ with_told z self.old)) }
    {
        let value = goal.value(self.walker.best()?);
        self.told = value;
        Some(value)
    }
}

/// Gives the giver's bottom node to a worker without nodes. Both work for goals of `n` products.
fn give(alloc: Global, giver: &mut Worker, taker: &mut Worker, n: usize) -> Result<(), NoMemory>
    requires products { IsWorkerOf n giver.old × IsWorkerOf n taker.old }
    ensures given { OnOk result (GivesOrNot n giver.old taker.old giver.new taker.new) }
    ensures unchanged { OnErr result ((giver.new ≡ giver.old) × (taker.new ≡ taker.old)) }
{
    if giver.walker.idle() || !taker.walker.idle() {
        return Ok(());
    }
    fit(alloc, &mut taker.walker, n)?;
    giver.walker.give(&mut taker.walker);
    Ok(())
}

/// The same of two workers of a list, by their numbers.
pub fn give_between(
    alloc: Global,
    n: usize,
    from: usize,
    to: usize,
    workers: &mut [Worker],
) -> Result<(), NoMemory>
    requires named { (from < length workers.old) × (to < length workers.old) × (from ≢ to) }
    requires products { All (IsWorkerOf n) workers.old }
    ensures given { OnOk result (GivesBetween n from to workers.old workers.new) }
    ensures unchanged { OnErr result (workers.new ≡ workers.old) }
{
    if from < to {
        let (front, back) = workers.split_at_mut(to);
        give(alloc, &mut front[from], &mut back[0], n)
    } else {
        let (front, back) = workers.split_at_mut(from);
        give(alloc, &mut back[0], &mut front[to], n)
    }
}

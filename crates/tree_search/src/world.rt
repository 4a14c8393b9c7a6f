//! The search by several workers over a list of events, whatever their order.
ghost use Rattle.std.specs.Prelude.{◌≡◌, ◌↔◌, ℕ, option_copied, IfOk, OnOk, OnErr, IsTrue};
ghost use Rattle.tree_search.specs.declared.event.Event.TheVariants.{Take, Look, Work, Tell, Give};
ghost use Rattle.tree_search.specs.Tasks.{tasks_of};
ghost use Rattle.tree_search.specs.Worlds.{start_of, worker_at, Happens, IsWorldOf, IsEnded};

use crate::event::Event;
use crate::goal::Goal;
use crate::worker::{Worker, give_between};
use offer_model::{Assortment, NoMemory};
use std::alloc::Global;
use std::marker::Model;

/// What several workers have who search one goal: a number that they share, the next task, and each one's nodes, best
/// assortment, number seen and number told.
///
/// Each worker works by a walker, which is made for the goal's products when it gets its first node.
#[derive(Drop)]
pub struct World {
    alloc: Global,
    shared: i128,
    next: u64,
    tasks: u64,
    workers: Vec<Worker>,
}

impl Model for World {
    ghost use Rattle.tree_search.specs.Worlds.{WorldData};

    ghost Value = { WorldData };

    ghost view = { λ w. record { shared = w.shared; next = w.next; tasks = w.tasks; workers = w.workers.items } };
}

impl World {
    /// A world of so many tasks, none of them taken, and so many workers that have done nothing.
    pub fn start(alloc: Global, tasks: u64, workers: u64) -> Result<World, NoMemory>
        ensures start { IfOk result (λ w. w ≡ start_of tasks workers) }
        ensures of { IfOk result (λ w. (n : ℕ) → tasks ≡ tasks_of n → IsWorldOf n w) }
    {
        let count = workers as usize;
        let mut list = Vec::with_capacity(alloc, count)?;
        for _made in 0..count {
            list.push_reserved(Worker::reserve(alloc)?);
        }
        Ok(World {
            alloc,
            shared: 0,
            next: 0,
            tasks,
            workers: list,
        })
    }

    /// The next task goes to the worker, where it has no node and a task is left.
    fn take<T: Goal>(&mut self, goal: &T, worker: u64) -> Result<(), NoMemory>
        requires world { IsWorldOf (T.rules goal.now).products self.old }
        ensures event { OnOk result (Happens (T.rules goal.now) (Take worker) self.old self.new) }
        ensures unchanged { OnErr result (self.new ≡ self.old) }
    {
        let index = worker as usize;
        if index >= self.workers.len() || self.next >= self.tasks || !self.workers[index].idle() {
            return Ok(());
        }
        self.workers[index].take(self.alloc, goal, self.next)?;
        self.next += 1;
        Ok(())
    }

    /// The worker sees the shared number.
    fn look<T: Goal>(&mut self, goal: &T, worker: u64)
        ensures { Happens (T.rules goal.now) (Look worker) self.old self.new }
    {
        let index = worker as usize;
        if index < self.workers.len() {
            self.workers[index].look(self.shared);
        }
    }

    /// The worker takes its top node, where it has one.
    fn work<T: Goal>(&mut self, goal: &mut T, worker: u64)
        requires world { IsWorldOf (T.rules goal.old).products self.old }
        ensures event { Happens (T.rules goal.old) (Work worker) self.old self.new }
        ensures same { goal.new ≡ goal.old }
    {
        let index = worker as usize;
        if index < self.workers.len() {
            self.workers[index].work(goal);
        }
    }

    /// The worker tells its best's value, where it has a best.
    fn tell<T: Goal>(&mut self, goal: &T, worker: u64)
        requires world { IsWorldOf (T.rules goal.now).products self.old }
        ensures { Happens (T.rules goal.now) (Tell worker) self.old self.new }
    {
        let index = worker as usize;
        if index >= self.workers.len() {
            return;
        }
        if let Some(value) = self.workers[index].tell(goal) {
            self.shared = self.shared.max(value);
        }
    }

    /// The first worker gives its bottom node to the second, where it has one and the second has none.
    fn give<T: Goal>(&mut self, goal: &T, from: u64, to: u64) -> Result<(), NoMemory>
        requires world { IsWorldOf (T.rules goal.now).products self.old }
        ensures event { OnOk result (Happens (T.rules goal.now) (Give from to) self.old self.new) }
        ensures unchanged { OnErr result (self.new ≡ self.old) }
    {
        let (giver, taker) = (from as usize, to as usize);
        let count = self.workers.len();
        if giver >= count || taker >= count || giver == taker {
            return Ok(());
        }
        let n = goal.products();
        give_between(self.alloc, n, giver, taker, self.workers.as_mut_slice())
    }

    /// Lets an event come to the world. An event that isn't possible, or that names no worker, changes nothing.
    pub fn apply<T: Goal>(&mut self, goal: &mut T, event: Event) -> Result<(), NoMemory>
        requires world { IsWorldOf (T.rules goal.old).products self.old }
        ensures event { OnOk result (Happens (T.rules goal.old) event self.old self.new) }
        ensures unchanged { OnErr result (self.new ≡ self.old) }
        ensures world { IsWorldOf (T.rules goal.old).products self.new }
        ensures same { goal.new ≡ goal.old }
    {
        match event {
            Event::Take(worker) => self.take(goal, worker)?,
            Event::Look(worker) => self.look(goal, worker),
            Event::Work(worker) => self.work(goal, worker),
            Event::Tell(worker) => self.tell(goal, worker),
            Event::Give(from, to) => self.give(goal, from, to)?,
        }
        Ok(())
    }

    /// Whether no task is left and no worker has a node.
    pub fn ended(&self) -> bool
        ensures { IsTrue result ↔ IsEnded self.now }
    {
        self.next >= self.tasks && self.workers.iter().all(|u| u.idle())
    }

    /// The best of the worker of that number, or `None` where it has none or the number names no worker.
    pub fn best(&self, worker: u64) -> Option<&Assortment>
        ensures { option_copied result ≡ (worker_at self.now worker).best }
    {
        self.workers.get(worker as usize)?.best()
    }
}

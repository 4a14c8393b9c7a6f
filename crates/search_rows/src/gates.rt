//! The gate that workers pass before their tasks.
ghost use Rattle.std.specs.Prelude.{◌≤◌};

use crate::goals::Counting;
use offer_io::Gate;
use offer_model::NoMemory;
use std::alloc::Global;
use std::sync::atomic::{AtomicU64, Ordering};
use std::test::Fail;
use std::thread::Threads;
use worker_rounds::search_together;

/// Counts how often it is passed, and adds up the tasks.
#[derive(Drop)]
struct Tally {
    passes: AtomicU64,
    tasks: AtomicU64,
}

impl Gate for Tally {
    fn pass(&self, _worker: u64, task: u64) {
        self.passes.fetch_add(1, Ordering::SeqCst);
        self.tasks.fetch_add(task, Ordering::SeqCst);
    }
}

/// How often so many workers pass the gate in a search among 20 products, and the sum of the tasks.
fn tally_of<R: Threads + Sync>(rt: &R, alloc: Global, workers: u64) -> Result<(u64, u64), NoMemory>
    requires { (1 ≤ workers) × (workers ≤ 64) }
{
    let calls = AtomicU64::new(0);
    let mut goal = Counting {
        products: 20,
        valued: true,
        calls: &calls,
    };
    let gate = Tally {
        passes: AtomicU64::new(0),
        tasks: AtomicU64::new(0),
    };
    search_together(rt, alloc, &mut goal, workers, &gate)?;
    Ok((
        gate.passes.load(Ordering::SeqCst),
        gate.tasks.load(Ordering::SeqCst),
    ))
}

#[test]
fn the_gate_is_passed_once_for_each_task(rt: HostRuntime) -> Result<(), Fail> {
    // The tasks are the numbers from 0 to 255, which are 32,640 in all.
    assert_eq!(rt; tally_of(&rt, rt.alloc(), 1)?, (256, 32_640));
    assert_eq!(rt; tally_of(&rt, rt.alloc(), 3)?, (256, 32_640));
    Ok(())
}

//! A meeting of two parts: each raises its flag and waits for the other's.

use offer_io::Gate;
use std::hint::spin_loop;
use std::sync::atomic::{AtomicU64, Ordering};
use std::thread::{Threads, join_mut};

/// How often a part looks for the other's flag: a few seconds, long enough for a second thread to begin on a machine under load.
const MOST_TURNS: u64 = 100_000_000;

/// A flag for each part, and one for a part that waited in vain. As a gate, it is where two workers meet.
#[derive(Drop)]
pub(crate) struct Meeting {
    first: AtomicU64,
    second: AtomicU64,
    alone: AtomicU64,
}

/// Whether the flag is raised within so many turns.
fn is_raised_soon(flag: &AtomicU64) -> bool {
    for _turn in 0..MOST_TURNS {
        if flag.load(Ordering::SeqCst) == 1 {
            return true;
        }
        spin_loop();
    }
    false
}

impl Meeting {
    pub(crate) fn new() -> Meeting {
        Meeting {
            first: AtomicU64::new(0),
            second: AtomicU64::new(0),
            alone: AtomicU64::new(0),
        }
    }

    /// Part 0 is the first, every other the second.
    fn meet(&self, part: u64) {
        let (own, other) = if part == 0 {
            (&self.first, &self.second)
        } else {
            (&self.second, &self.first)
        };
        own.store(1, Ordering::SeqCst);
        if !is_raised_soon(other) {
            self.alone.store(1, Ordering::SeqCst);
        }
    }

    /// Whether both parts came, and none waited in vain.
    pub(crate) fn is_held(&self) -> bool {
        self.first.load(Ordering::SeqCst) == 1
            && self.second.load(Ordering::SeqCst) == 1
            && self.alone.load(Ordering::SeqCst) == 0
    }
}

impl Gate for Meeting {
    fn pass(&self, worker: u64, _task: u64) {
        self.meet(worker);
    }
}

/// Whether the machine runs two parts at the same time. Where it makes no thread, the one runs after the other.
pub(crate) fn two_parts_meet<R: Threads>(rt: &R) -> bool {
    let meeting = Meeting::new();
    join_mut(rt, &mut || meeting.meet(0), &mut || meeting.meet(1));
    meeting.is_held()
}

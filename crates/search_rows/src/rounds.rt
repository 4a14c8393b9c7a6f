//! One worker's round.

use crate::goals::Counting;
use offer_io::OpenGate;
use shared_best::Desk;
use std::sync::atomic::{AtomicU64, Ordering};
use std::test::Fail;
use tree_search::{Walker, tasks_of};
use worker_rounds::work_round;

#[test]
fn a_worker_looks_at_what_another_told(rt: HostRuntime) -> Result<(), Fail> {
    let calls = AtomicU64::new(0);
    let mut goal = Counting {
        products: 20,
        valued: false,
        calls: &calls,
    };
    let (desk, mut opening) = Desk::open(rt.alloc(), tasks_of(20))?;
    let mut place = desk.split(&mut opening);
    let mut walker = Walker::reserve(rt.alloc(), 20)?;
    desk.tell(&mut opening, 21);
    work_round(&desk, &mut place, &mut walker, &mut goal, 1, &OpenGate);
    let counted = calls.load(Ordering::SeqCst);
    assert!(rt; place.done());
    assert!(rt; counted <= 10_000, "{counted} calls");
    Ok(())
}

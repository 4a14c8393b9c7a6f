//! Searches to the end, and how often they ask for a bound or a value.
ghost use Rattle.std.specs.Prelude.{◌≤◌};

use crate::goals::{Counting, offered_of};
use offer_io::OpenGate;
use offer_model::NoMemory;
use std::alloc::Global;
use std::sync::atomic::{AtomicU64, Ordering};
use std::test::Fail;
use std::thread::Threads;
use tree_search::search_alone;
use worker_rounds::search_together;

/// How many of 20 products are offered by what so many workers find.
fn offered_by<R: Threads + Sync>(
    rt: &R,
    alloc: Global,
    workers: u64,
    calls: &AtomicU64,
) -> Result<Option<usize>, NoMemory>
    requires { (1 ≤ workers) × (workers ≤ 64) }
{
    let mut goal = Counting {
        products: 20,
        valued: true,
        calls,
    };
    match search_together(rt, alloc, &mut goal, workers, &OpenGate)? {
        Some(best) => Ok(Some(offered_of(&best))),
        None => Ok(None),
    }
}

#[test]
fn a_search_alone_drops_nodes(rt: HostRuntime) -> Result<(), Fail> {
    let calls = AtomicU64::new(0);
    let mut goal = Counting {
        products: 20,
        valued: true,
        calls: &calls,
    };
    let best = search_alone(rt.alloc(), &mut goal)?.ok_or("none")?;
    assert_eq!(rt; offered_of(&best), 20);
    let counted = calls.load(Ordering::SeqCst);
    assert!(rt; counted <= 200_000, "{counted} calls");
    Ok(())
}

#[test]
fn a_search_by_two_workers_drops_nodes(rt: HostRuntime) -> Result<(), Fail> {
    let calls = AtomicU64::new(0);
    assert_eq!(rt; offered_by(&rt, rt.alloc(), 2, &calls)?, Some(20));
    let counted = calls.load(Ordering::SeqCst);
    assert!(rt; counted <= 200_000, "{counted} calls");
    Ok(())
}

#[test]
fn one_worker_and_many_find_the_same(rt: HostRuntime) -> Result<(), Fail> {
    let calls = AtomicU64::new(0);
    assert_eq!(rt; offered_by(&rt, rt.alloc(), 1, &calls)?, Some(20));
    assert_eq!(rt; offered_by(&rt, rt.alloc(), 64, &calls)?, Some(20));
    Ok(())
}

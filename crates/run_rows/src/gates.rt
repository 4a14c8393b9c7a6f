//! Two workers run at the same time: each waits at its gate for the other. Where the machine makes no thread, nothing is judged.
ghost use Rattle.std.specs.Prelude.{◌≡◌};
ghost use Rattle.offer_model.specs.declared.products.ModelName.TheVariants.{Mixed};

use crate::meeting::{Meeting, two_parts_meet};
use crate::runs::{NOTHING_FAILS, run_by};
use crate::worked::{PRODUCTS, PROOF, REPORT, SEGMENTS, is_first_alone, worked_problem};
use offer_io::MemoryStore;
use offer_model::{NoMemory, Problem};
use segment_bound::MixedGoal;
use std::alloc::Global;
use std::test::Fail;
use std::thread::Threads;
use worker_rounds::search_together;

/// Whether two workers, who pass this gate, find the first product alone.
fn two_find_the_first<R: Threads + Sync>(
    rt: &R,
    alloc: Global,
    p: &Problem,
    gate: &Meeting,
) -> Result<bool, NoMemory>
    requires { p.now.model ≡ Mixed }
{
    let mut goal = MixedGoal::prepare(alloc, p)?;
    match search_together(rt, alloc, &mut goal, 2, gate)? {
        Some(best) => Ok(is_first_alone(&best)),
        None => Ok(false),
    }
}

#[test]
fn two_workers_of_a_search_meet(rt: HostRuntime) -> Result<(), Fail> {
    if !two_parts_meet(&rt) {
        return Ok(());
    }
    let gate = Meeting::new();
    let p = worked_problem(&rt, rt.alloc())?;
    assert!(rt; two_find_the_first(&rt, rt.alloc(), &p, &gate)?);
    assert!(rt; gate.is_held(), "the workers did not meet");
    Ok(())
}

#[test]
fn two_workers_of_a_run_meet(rt: HostRuntime) -> Result<(), Fail> {
    if !two_parts_meet(&rt) {
        return Ok(());
    }
    let gate = Meeting::new();
    let line =
        "solve --model mixed --products p.csv --segments s.csv --unit 1 --proof q --workers 2";
    let mut store = MemoryStore::new(rt.alloc());
    store.put("p.csv", PRODUCTS)?;
    store.put("s.csv", SEGMENTS)?;
    let said = run_by(&rt, rt.alloc(), line, &mut store, NOTHING_FAILS, &gate)?;
    assert!(rt; gate.is_held(), "the workers did not meet");
    assert_eq!(rt; said.status, 0);
    assert_eq!(rt; said.out.as_slice(), REPORT);
    assert!(rt; store.file("q") == Some(PROOF));
    Ok(())
}

//! A best assortment of mixed logit, its certificate and a check of it.

use crate::runs::{NOTHING_FAILS, run_over};
use crate::worked::{PRODUCTS, PROOF, REPORT, SEGMENTS};
use offer_io::MemoryStore;
use std::test::Fail;

#[test]
fn a_tie_of_rounded_revenue_is_broken_and_certified(rt: HostRuntime) -> Result<(), Fail> {
    let mut store = MemoryStore::new(rt.alloc());
    store.put("p.csv", PRODUCTS)?;
    store.put("s.csv", SEGMENTS)?;

    let solve = "solve --model mixed --products p.csv --segments s.csv --unit 1 --proof q";
    let solved = run_over(&rt, rt.alloc(), solve, &mut store, NOTHING_FAILS)?;
    assert_eq!(rt; solved.status, 0);
    assert_eq!(rt; solved.out.as_slice(), REPORT);
    assert!(rt; store.file("q") == Some(PROOF));

    let check = "check --model mixed --products p.csv --segments s.csv --unit 1 --proof q";
    let checked = run_over(&rt, rt.alloc(), check, &mut store, NOTHING_FAILS)?;
    assert_eq!(rt; checked.status, 0);
    // In units of a third the two together bring more.
    let other = "check --model mixed --products p.csv --segments s.csv --unit 3 --proof q";
    let rejected = run_over(&rt, rt.alloc(), other, &mut store, NOTHING_FAILS)?;
    assert_eq!(rt; rejected.status, 1);
    Ok(())
}

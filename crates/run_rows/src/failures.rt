//! Runs over stores and sinks that fail, and over ones that never do.

use crate::runs::{Failing, NOTHING_FAILS, run_over, texts};
use assort_core::run;
use offer_io::{CountSink, MemoryStore, OpenGate, ReadyStore};
use std::test::Fail;

const SOLVE: &str = "solve --model logit --products p.csv --none 5";

const SOLVE_AND_PROVE: &str = "solve --model logit --products p.csv --none 5 --proof q";

const CHECK: &str = "check --model logit --products p.csv --none 5 --proof q";

const PRODUCTS: &[u8] = b"name,margin,attraction\nA,10,2\nB,4,3\n";

const REPORT: &[u8] = b"model logit\nproducts 2\noffer A\noffer B\nset 11\nvalue 32/10\n";

const PROOF: &[u8] = b"assort-proof 1\nmodel logit\nset 11\nvalue 32/10\nb 0\nb 1\nm\nm\nm\nend\n";

const UNREAD: &[u8] = b"assort: cannot read products\n";

const UNREAD_PROOF: &[u8] = b"assort: cannot read proof\n";

const UNWRITTEN_PROOF: &[u8] = b"assort: cannot write proof\n";

const UNWRITTEN: &[u8] = b"assort: cannot write output\n";

#[test]
fn a_sink_that_fails_is_named_and_an_error_stream_that_fails_changes_nothing(
    rt: HostRuntime,
) -> Result<(), Fail> {
    let refused = "solve --model nested --products p.csv --none 5";
    let cases: [(&str, u64, u64, u8, &[u8]); 3] = [
        (SOLVE, 1, 0, 4, UNWRITTEN),
        (SOLVE, 2, 0, 0, b""),
        (refused, 0, 1, 2, b""),
    ];
    for (line, out, err, status, told) in cases {
        let mut store = MemoryStore::new(rt.alloc());
        store.put("p.csv", PRODUCTS)?;
        let said = run_over(&rt, rt.alloc(), line, &mut store, Failing { out, err })?;
        assert_eq!(rt; said.status, status, "{line}");
        assert!(rt; REPORT.starts_with(said.out.as_slice()), "{line}");
        if err == 0 {
            assert_eq!(rt; said.err.as_slice(), told, "{line}");
        }
    }
    Ok(())
}

#[test]
fn a_report_that_cant_be_written_leaves_the_proof_whole(rt: HostRuntime) -> Result<(), Fail> {
    let mut store = MemoryStore::new(rt.alloc());
    store.put("p.csv", PRODUCTS)?;
    store.put("q", b"an older file")?;
    let failing = Failing { out: 1, err: 0 };
    let said = run_over(&rt, rt.alloc(), SOLVE_AND_PROVE, &mut store, failing)?;
    assert_eq!(rt; said.status, 4);
    assert!(rt; said.out.is_empty());
    assert_eq!(rt; said.err.as_slice(), UNWRITTEN);
    assert!(rt; store.file("q") == Some(PROOF));
    Ok(())
}

#[test]
fn a_steady_store_gives_the_same_report(rt: HostRuntime) -> Result<(), Fail> {
    let mut store = ReadyStore::new(rt.alloc());
    store.put("p.csv", PRODUCTS)?;
    let held = run_over(&rt, rt.alloc(), SOLVE, &mut store, NOTHING_FAILS)?;
    assert_eq!(rt; held.status, 0);
    assert_eq!(rt; held.out.as_slice(), REPORT);
    let words = texts(rt.alloc(), SOLVE)?;
    let mut out = CountSink::new();
    let mut err = CountSink::new();
    let alloc = rt.alloc();
    let status = run(
        &rt, alloc, &words, &mut store, &mut out, &mut err, &OpenGate,
    );
    assert_eq!(rt; status, 0);
    assert_eq!(rt; out.written(), 58);
    Ok(())
}

#[test]
fn each_call_of_the_store_that_fails_is_named(rt: HostRuntime) -> Result<(), Fail> {
    for call in 1..17u64 {
        let mut store = MemoryStore::new(rt.alloc());
        store.put("p.csv", PRODUCTS)?;
        store.put("q", b"an older file")?;
        store.fail_at(call)?;
        let said = run_over(&rt, rt.alloc(), SOLVE_AND_PROVE, &mut store, NOTHING_FAILS)?;
        let status = if call < 16 { 4 } else { 0 };
        let told = if call < 4 {
            UNREAD
        } else if call < 16 {
            UNWRITTEN_PROOF
        } else {
            b"".as_slice()
        };
        assert_eq!(rt; said.status, status, "{call}");
        assert_eq!(rt; said.err.as_slice(), told, "{call}");
        assert!(rt; said.out.is_empty() == (call < 16));
        let left = store.file("q").unwrap_or(b"no file".as_slice());
        let kept = left == b"an older file".as_slice();
        assert!(rt; kept || (call > 3 && PROOF.starts_with(left)), "{call}");
    }
    Ok(())
}

#[test]
fn each_call_of_the_store_that_fails_a_check_is_named(rt: HostRuntime) -> Result<(), Fail> {
    for call in 1..8u64 {
        let mut store = MemoryStore::new(rt.alloc());
        store.put("p.csv", PRODUCTS)?;
        store.put("q", PROOF)?;
        store.fail_at(call)?;
        let said = run_over(&rt, rt.alloc(), CHECK, &mut store, NOTHING_FAILS)?;
        let status = if call < 7 { 4 } else { 0 };
        let told = if call < 4 {
            UNREAD
        } else if call < 7 {
            UNREAD_PROOF
        } else {
            b"".as_slice()
        };
        assert_eq!(rt; said.status, status, "{call}");
        assert_eq!(rt; said.err.as_slice(), told, "{call}");
        assert!(rt; said.out.is_empty() == (call < 7));
        assert!(rt; store.file("q") == Some(PROOF));
    }
    Ok(())
}

#[test]
fn the_second_line_that_fails_leaves_the_first(rt: HostRuntime) -> Result<(), Fail> {
    let mut store = MemoryStore::new(rt.alloc());
    store.put("p.csv", PRODUCTS)?;
    store.fail_at(6)?;
    let said = run_over(&rt, rt.alloc(), SOLVE_AND_PROVE, &mut store, NOTHING_FAILS)?;
    assert_eq!(rt; said.status, 4);
    assert!(rt; said.out.is_empty());
    assert_eq!(rt; said.err.as_slice(), UNWRITTEN_PROOF);
    assert!(rt; store.file("q") == Some(b"assort-proof 1\n".as_slice()));
    Ok(())
}

#[test]
fn reads_of_one_byte_give_the_same_proof_and_verdict(rt: HostRuntime) -> Result<(), Fail> {
    let mut store = MemoryStore::new(rt.alloc());
    store.put("p.csv", PRODUCTS)?;
    store.give_at_most(1);
    let solved = run_over(&rt, rt.alloc(), SOLVE_AND_PROVE, &mut store, NOTHING_FAILS)?;
    assert_eq!(rt; solved.out.as_slice(), REPORT);
    assert!(rt; store.file("q") == Some(PROOF));
    let checked = run_over(&rt, rt.alloc(), CHECK, &mut store, NOTHING_FAILS)?;
    assert_eq!(rt; checked.status, 0);
    assert_eq!(rt; checked.out.as_slice(), b"accepted\n".as_slice());
    Ok(())
}

//! The commands that write a file, over a store whose calls fail one by one, and over an output that takes nothing.

use crate::runs::{Failing, NOTHING_FAILS, Said, run_over};
use offer_io::MemoryStore;
use std::alloc::Global;
use std::test::Fail;
use std::thread::Threads;

const OLDER: &[u8] = b"an older file";

/// A run that writes a file: its words, the two files that it may read, the file that it writes, what it leaves there, and the
/// lines of a store that fails.
#[derive(Clone, Copy)]
struct Row {
    line: &'static str,
    products: &'static [u8],
    arcs: &'static [u8],
    output: &'static str,
    text: &'static [u8],
    told: [&'static [u8]; 3],
}

const CHAIN: Row = Row {
    line: "solve --model chain --products p.csv --arcs a.csv --scale 3 --proof q",
    products: b"name,margin,arrival\nA,10,0\nB,0,1\nC,0,0\n",
    arcs: b"from,to,parts\nB,C,1\nC,A,1\n",
    output: "q",
    text: b"assort-proof 1\nmodel chain\nset 100\nvalue 1111111 1111112\nu 10000000 1111112 3333334\nh 10000000 1111111 3333333\nend\n",
    told: [
        b"assort: cannot read products\n",
        b"assort: cannot read arcs\n",
        b"assort: cannot write proof\n",
    ],
};

const TRIAL: Row = Row {
    line: "trial --seed 1234567 --count 1 --save t.csv",
    products: b"",
    arcs: b"",
    output: "t.csv",
    text: b"name,margin,attraction,shadow,category,space,price,ladder,grade,arrival\np0,318,0,0,,0,0,,0,0\n",
    told: [b"assort: cannot write catalogue\n"; 3],
};

/// A store with the row's files, and an older file where its output goes.
fn store_of(alloc: Global, row: Row) -> Result<MemoryStore, Fail> {
    let mut store = MemoryStore::new(alloc);
    store.put("p.csv", row.products)?;
    store.put("a.csv", row.arcs)?;
    store.put(row.output, OLDER)?;
    Ok(store)
}

/// Whether a run was stopped by its store: a line of it, no report, and the older file or a part from the front of the output.
fn is_stopped(row: Row, said: &Said, store: &MemoryStore) -> bool {
    let left = store.file(row.output).unwrap_or(b"no file".as_slice());
    said.status == 4
        && said.out.is_empty()
        && row.told.iter().any(|line| *line == said.err.as_slice())
        && (left == OLDER || row.text.starts_with(left))
}

/// The first call whose failure stops nothing, where each one before it stops the run as stated.
fn first_unmet<R: Threads + Sync>(rt: &R, alloc: Global, row: Row) -> Result<Option<u64>, Fail> {
    for call in 1..64u64 {
        let mut store = store_of(alloc, row)?;
        store.fail_at(call)?;
        let said = run_over(rt, alloc, row.line, &mut store, NOTHING_FAILS)?;
        if said.status == 0 {
            return Ok(Some(call));
        }
        if !is_stopped(row, &said, &store) {
            return Ok(None);
        }
    }
    Ok(None)
}

#[test]
fn each_call_of_the_store_that_fails_stops_the_run(rt: HostRuntime) -> Result<(), Fail> {
    // A chain: three calls for each of two files that are read, then its proof is made, written in seven lines, and ended. The
    // catalogue of trial inputs is made, written at once, and ended.
    assert!(rt; first_unmet(&rt, rt.alloc(), CHAIN)? == Some(16));
    assert!(rt; first_unmet(&rt, rt.alloc(), TRIAL)? == Some(4));
    Ok(())
}

#[test]
fn an_output_that_takes_nothing_leaves_the_file_whole(rt: HostRuntime) -> Result<(), Fail> {
    for row in [CHAIN, TRIAL] {
        let mut store = store_of(rt.alloc(), row)?;
        let failing = Failing { out: 1, err: 0 };
        let said = run_over(&rt, rt.alloc(), row.line, &mut store, failing)?;
        assert_eq!(rt; said.status, 4);
        assert!(rt; said.out.is_empty());
        assert!(rt; said.err.as_slice() == b"assort: cannot write output\n".as_slice());
        assert!(rt; store.file(row.output) == Some(row.text));
    }
    Ok(())
}

#[test]
fn reads_of_one_byte_leave_the_same_file(rt: HostRuntime) -> Result<(), Fail> {
    for row in [CHAIN, TRIAL] {
        let mut store = store_of(rt.alloc(), row)?;
        store.give_at_most(1);
        let said = run_over(&rt, rt.alloc(), row.line, &mut store, NOTHING_FAILS)?;
        assert_eq!(rt; said.status, 0);
        assert!(rt; store.file(row.output) == Some(row.text));
    }
    Ok(())
}

//! One run over a store, with sinks in memory.

use assort_core::run;
use offer_io::{Gate, MemorySink, OpenGate, Store};
use offer_model::Texts;
use std::alloc::Global;
use std::test::Fail;
use std::thread::Threads;

/// The status, standard output and standard error of a run.
#[derive(Drop)]
pub(crate) struct Said {
    pub(crate) status: u8,
    pub(crate) out: Vec<u8>,
    pub(crate) err: Vec<u8>,
}

/// The call of each sink that fails, 0 for none.
#[derive(Clone, Copy)]
pub(crate) struct Failing {
    pub(crate) out: u64,
    pub(crate) err: u64,
}

pub(crate) const NOTHING_FAILS: Failing = Failing { out: 0, err: 0 };

fn sink(alloc: Global, failing: u64) -> Result<MemorySink, Fail> {
    let mut sink = MemorySink::new(alloc);
    if failing > 0 {
        sink.fail_at(failing)?;
    }
    Ok(sink)
}

/// The words of a line, which one space keeps apart.
pub(crate) fn texts(alloc: Global, line: &str) -> Result<Texts, Fail> {
    let mut words = Texts::new(alloc);
    for word in line.split(' ') {
        words.push(word)?;
    }
    Ok(words)
}

/// A run of these words over a store, with a gate that holds nobody up.
pub(crate) fn run_over<R: Threads + Sync, S: Store>(
    rt: &R,
    alloc: Global,
    line: &str,
    store: &mut S,
    failing: Failing,
) -> Result<Said, Fail> {
    run_by(rt, alloc, line, store, failing, &OpenGate)
}

/// A run of these words over a store, whose workers pass this gate.
pub(crate) fn run_by<R: Threads + Sync, S: Store, G: Gate + Sync>(
    rt: &R,
    alloc: Global,
    line: &str,
    store: &mut S,
    failing: Failing,
    gate: &G,
) -> Result<Said, Fail> {
    let words = texts(alloc, line)?;
    let mut out = sink(alloc, failing.out)?;
    let mut err = sink(alloc, failing.err)?;
    let status = run(rt, alloc, &words, store, &mut out, &mut err, gate);
    Ok(Said {
        status,
        out: Vec::from_slice(alloc, out.bytes())?,
        err: Vec::from_slice(alloc, err.bytes())?,
    })
}

ghost use Rattle.std.specs.Prelude.{◌≡◌, ◌+◌, ◌-◌, ◌^◌, min, length, OnOk, OnErr, IsErr, IsTrue};
ghost use Rattle.offer_io.specs.Plans.{new_plan, plan_with, fails_next};
ghost use Rattle.offer_io.specs.Sinks.{Writes, quiet_view};

use crate::plans::Plan;
use crate::{Failed, Sink};
use offer_model::NoMemory;
use std::alloc::Global;
use std::marker::Model;

/// A sink in memory, which tells its bytes.
///
/// Its writes are counted from 1 to 2^64 - 1, where the count stays.
#[derive(Drop)]
pub struct MemorySink {
    bytes: Vec<u8>,
    plan: Plan,
    faults: u64,
}

impl MemorySink {
    ghost use Rattle.offer_io.specs.MemorySinks.{memory_sink_view, sink_plan, empty_sink};

    /// A sink to which nothing was written. It keeps the allocator for later growth.
    pub fn new(alloc: Global) -> MemorySink
        ensures view { memory_sink_view result ≡ empty_sink }
        ensures plan { sink_plan result ≡ new_plan }
    {
        MemorySink {
            bytes: Vec::new(alloc),
            plan: Plan::new(alloc),
            faults: 0,
        }
    }

    /// Makes the write of this number fail.
    pub fn fail_at(&mut self, call: u64) -> Result<(), NoMemory>
        ensures ok { OnOk result (sink_plan self.new ≡ plan_with (sink_plan self.old) call) }
        ensures err { OnErr result (sink_plan self.new ≡ sink_plan self.old) }
        ensures view { memory_sink_view self.new ≡ memory_sink_view self.old }
    {
        self.plan.fail_at(call)
    }

    /// The bytes that were written.
    pub fn bytes(&self) -> &[u8]
        ensures { result.now ≡ (memory_sink_view self.now).bytes }
    {
        self.bytes.as_slice()
    }

    /// How many writes failed, up to 2^64 - 1.
    pub fn faults(&self) -> u64
        ensures { result ≡ (memory_sink_view self.now).faults }
    {
        self.faults
    }
}

impl Sink for MemorySink {
    ghost use Rattle.offer_io.specs.MemorySinks.{memory_sink_view, sink_plan, CountsWrite};

    ghost view = { memory_sink_view };

    fn write(&mut self, piece: &[u8]) -> Result<(), Failed>
        ensures writes { Writes
            (memory_sink_view self.old) piece.now result (memory_sink_view self.new) }
        ensures fails { IsTrue (fails_next (sink_plan self.old)) → IsErr result }
        ensures counted { CountsWrite self.old result self.new }
    {
        if self.plan.fails_now() {
            self.faults = self.faults.saturating_add(1);
            return Err(Failed);
        }
        if self.bytes.extend_from_slice(piece).is_err() {
            self.faults = self.faults.saturating_add(1);
            return Err(Failed);
        }
        Ok(())
    }
}

/// A sink that keeps only the number of bytes, and never fails. Contracts see it as that number.
#[derive(Drop)]
pub struct CountSink {
    written: u64,
}

impl Model for CountSink {
    ghost use Rattle.std.specs.Prelude.{ℕ};

    ghost Value = { ℕ };

    ghost view = { λ s. s.written };
}

impl CountSink {
    pub fn new() -> CountSink
        ensures { result ≡ 0 }
    {
        CountSink { written: 0 }
    }

    /// How many bytes were written, up to 2^64 - 1.
    pub fn written(&self) -> u64
        ensures { result ≡ self.now }
    {
        self.written
    }
}

impl Sink for CountSink {
    ghost view = { λ _. quiet_view };

    fn write(&mut self, piece: &[u8]) -> Result<(), Failed>
        ensures writes { Writes (quiet_view) piece.now result (quiet_view) }
        ensures count { self.new ≡ min (self.old + length piece.now) (2 ^ 64 - 1) }
    {
        self.written = self.written.saturating_add(piece.len() as u64);
        Ok(())
    }
}

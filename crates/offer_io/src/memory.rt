//! A store in memory, which tells all that it holds.
// A struct with ghost fields imports each line here, so what names the struct itself is imported by
// the blocks below.
ghost use Rattle.std.specs.Prelude.{◌≡◌, ◌≤◌, ◌<◌, length, OnOk, OnErr, IfOk, IsErr, IsTrue, ◌↔◌, option_copied};
ghost use Rattle.std.specs.Option.{ForSome};
ghost use Rattle.offer_io.specs.Plans.{new_plan, plan_with, fails_next};
ghost use Rattle.offer_io.specs.Entries.{IsFirst};

use crate::entries::{self, Entry};
use crate::plans::Plan;
use crate::{Failed, Store};
use offer_model::NoMemory;
use std::alloc::Global;

/// A store in memory, which tells all that it holds. It has no steady names.
///
/// Its calls are counted together, from 1 to 2^64 - 1, where the count stays.
#[derive(Drop)]
pub struct MemoryStore {
    alloc: Global,
    files: Vec<Entry>,
    // The place of the file in the list, and the place in the file: to open a file takes no memory.
    input: Option<(usize, usize)>,
    output: Option<usize>,
    sealed: bool,
    plan: Plan,
    // The most bytes that a read gives.
    most: usize,
    faults: u64,
    ghost most_is_some: { 1 ≤ most },
    ghost input_there: { ForSome input (λ p. p.0 < length files.items) },
    ghost output_there: { ForSome output (IsFirst files.items) },
}

impl MemoryStore {
    ghost use Rattle.offer_io.specs.MemoryStores.{memory_view, store_plan, store_most, empty_view, Puts};

    /// A store without files. It keeps the allocator for later growth.
    pub fn new(alloc: Global) -> MemoryStore
        ensures view { memory_view result ≡ empty_view }
        ensures plan { store_plan result ≡ new_plan }
    {
        MemoryStore {
            alloc,
            files: Vec::new(alloc),
            input: None,
            output: None,
            sealed: false,
            plan: Plan::new(alloc),
            most: usize::MAX,
            faults: 0,
        }
    }

    /// Puts a file there, in place of one of its name.
    pub fn put(&mut self, name: &str, content: &[u8]) -> Result<(), NoMemory>
        ensures ok { OnOk result
            (Puts (memory_view self.old) name.now content.now (memory_view self.new)) }
        ensures err { OnErr result (memory_view self.new ≡ memory_view self.old) }
        ensures plan { store_plan self.new ≡ store_plan self.old }
        ensures most { store_most self.new ≡ store_most self.old }
    {
        entries::put_file(self.alloc, &mut self.files, name.as_bytes(), content)?;
        Ok(())
    }

    /// Makes the call of this number fail.
    pub fn fail_at(&mut self, call: u64) -> Result<(), NoMemory>
        ensures ok { OnOk result (store_plan self.new ≡ plan_with (store_plan self.old) call) }
        ensures err { OnErr result (store_plan self.new ≡ store_plan self.old) }
        ensures view { memory_view self.new ≡ memory_view self.old }
        ensures most { store_most self.new ≡ store_most self.old }
    {
        self.plan.fail_at(call)
    }

    /// Lets each later read give at most so many bytes. It takes no memory.
    pub fn give_at_most(&mut self, bytes: usize)
        requires { 1 ≤ bytes }
        ensures most { store_most self.new ≡ bytes }
        ensures plan { store_plan self.new ≡ store_plan self.old }
        ensures view { memory_view self.new ≡ memory_view self.old }
    {
        self.most = bytes;
    }

    #[tactic(auto, using(crate::proofs::EntryLemmas::absent, crate::proofs::EntryLemmas::opened))]
    /// The content of a file.
    pub fn file(&self, name: &str) -> Option<&[u8]>
        ensures { option_copied result ≡ (memory_view self.now).file name.now }
    {
        let place = entries::place_of(&self.files, name.as_bytes())?;
        Some(entries::whole_at(&self.files, place))
    }

    /// How many calls failed, up to 2^64 - 1.
    pub fn faults(&self) -> u64
        ensures { result ≡ (memory_view self.now).faults }
    {
        self.faults
    }
}

#[tactic(auto, using(crate::proofs::EntryLemmas::shelf_steps))]
impl Store for MemoryStore {
    ghost use Rattle.offer_io.specs.MemoryStores.{memory_view, store_plan, store_most, Counts, FailsToOpen};
    ghost use Rattle.offer_io.specs.Stores.{Opens, Reads, Creates, Appends, Seals};

    ghost view = { memory_view };

    fn open(&mut self, name: &str) -> Result<(), Failed>
        ensures opens { Opens (memory_view self.old) name.now result (memory_view self.new) }
        ensures fails { IsErr result
            ↔ FailsToOpen (store_plan self.old) (memory_view self.old) name.now }
        ensures counted { Counts self.old result self.new }
    {
        self.input = None;
        if self.plan.fails_now() {
            self.faults = self.faults.saturating_add(1);
            return Err(Failed);
        }
        match entries::place_of(&self.files, name.as_bytes()) {
            Some(place) => {
                self.input = Some((place, 0));
                Ok(())
            }
            None => {
                self.faults = self.faults.saturating_add(1);
                Err(Failed)
            }
        }
    }

    fn read(&mut self, piece: &mut [u8]) -> Result<usize, Failed>
        requires { IsTrue (memory_view self.old).reading }
        ensures reads { Reads (memory_view self.old) result piece.new (memory_view self.new) }
        ensures fails { IsErr result ↔ IsTrue (fails_next (store_plan self.old)) }
        ensures most { IfOk result (λ n. n ≤ store_most self.old) }
        ensures counted { Counts self.old result self.new }
    {
        let Some((place, from)) = self.input else {
            unreachable!();
        };
        if self.plan.fails_now() {
            self.faults = self.faults.saturating_add(1);
            return Err(Failed);
        }
        let rest = entries::rest_at(&self.files, place, from);
        let count = entries::fill(rest, piece, self.most);
        self.input = Some((place, from + count));
        Ok(count)
    }

    fn create(&mut self, name: &str) -> Result<(), Failed>
        ensures creates { Creates (memory_view self.old) name.now result (memory_view self.new) }
        ensures fails { IsTrue (fails_next (store_plan self.old)) → IsErr result }
        ensures counted { Counts self.old result self.new }
    {
        self.output = None;
        self.sealed = false;
        if self.plan.fails_now() {
            self.faults = self.faults.saturating_add(1);
            return Err(Failed);
        }
        match entries::place_of(&self.files, name.as_bytes()) {
            Some(place) => {
                entries::empty_at(&mut self.files, place);
                self.output = Some(place);
                Ok(())
            }
            None => {
                let place = self.files.len();
                let empty = Vec::new(self.alloc);
                if entries::add_file(self.alloc, &mut self.files, name.as_bytes(), empty).is_err() {
                    self.faults = self.faults.saturating_add(1);
                    return Err(Failed);
                }
                self.output = Some(place);
                Ok(())
            }
        }
    }

    fn append(&mut self, piece: &[u8]) -> Result<(), Failed>
        requires { IsTrue (memory_view self.old).writing }
        ensures appends { Appends (memory_view self.old) piece.now result (memory_view self.new) }
        ensures fails { IsTrue (fails_next (store_plan self.old)) → IsErr result }
        ensures counted { Counts self.old result self.new }
    {
        let Some(place) = self.output else {
            unreachable!();
        };
        if self.plan.fails_now() {
            self.faults = self.faults.saturating_add(1);
            return Err(Failed);
        }
        if entries::grow_at(&mut self.files, place, piece).is_err() {
            self.faults = self.faults.saturating_add(1);
            return Err(Failed);
        }
        Ok(())
    }

    fn seal(&mut self) -> Result<(), Failed>
        requires { IsTrue (memory_view self.old).writing }
        ensures seals { Seals (memory_view self.old) result (memory_view self.new) }
        ensures fails { IsErr result ↔ IsTrue (fails_next (store_plan self.old)) }
        ensures counted { Counts self.old result self.new }
    {
        self.output = None; // what was written stands
        self.sealed = !self.plan.fails_now();
        if !self.sealed {
            self.faults = self.faults.saturating_add(1);
            return Err(Failed);
        }
        Ok(())
    }
}

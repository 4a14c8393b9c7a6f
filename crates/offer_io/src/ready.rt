//! A store that never fails at the files that it holds, and tells nothing.
// A struct with ghost fields imports each line here, so what names the struct itself is imported by
// the blocks below.
ghost use Rattle.std.specs.Prelude.{◌≡◌, ◌<◌, length, OnOk, OnErr, IsTrue, Contains};
ghost use Rattle.std.specs.Option.{ForSome};
ghost use Rattle.offer_io.specs.Causes.{count_after};

use crate::entries::{self, Entry};
use crate::{Failed, Store};
use offer_model::NoMemory;
use std::alloc::Global;

/// A steady store: it never fails at the files that were put. It tells no content, and forgets what
/// is appended.
#[derive(Drop)]
pub struct ReadyStore {
    alloc: Global,
    files: Vec<Entry>,
    input: Option<(usize, usize)>,
    writing: bool,
    sealed: bool,
    faults: u64,
    ghost input_there: { ForSome input (λ p. p.0 < length files.items) },
}

impl ReadyStore {
    ghost use Rattle.offer_io.specs.ReadyStores.{ready_view, shelf_of, new_ready, HoldsToo};
    ghost use Rattle.offer_io.specs.MemoryStores.{empty_view, Puts};

    /// A store without files. It keeps the allocator for later growth.
    pub fn new(alloc: Global) -> ReadyStore
        ensures view { ready_view result ≡ new_ready }
        ensures shelf { shelf_of result ≡ empty_view }
    {
        ReadyStore {
            alloc,
            files: Vec::new(alloc),
            input: None,
            writing: false,
            sealed: false,
            faults: 0,
        }
    }

    /// Puts a file there, in place of one of its name.
    pub fn put(&mut self, name: &str, content: &[u8]) -> Result<(), NoMemory>
        ensures ok { OnOk result (HoldsToo (ready_view self.old) name.now (ready_view self.new)) }
        ensures shelf { OnOk result
            (Puts (shelf_of self.old) name.now content.now (shelf_of self.new)) }
        ensures err { OnErr result (ready_view self.new ≡ ready_view self.old) }
        ensures err_shelf { OnErr result (shelf_of self.new ≡ shelf_of self.old) }
    {
        entries::put_file(self.alloc, &mut self.files, name.as_bytes(), content)?;
        Ok(())
    }
}

#[tactic(auto, using(crate::proofs::HeldLemmas::held_steps, crate::proofs::EntryLemmas::shelf_steps))]
impl Store for ReadyStore {
    ghost use Rattle.offer_io.specs.ReadyStores.{ready_view, shelf_of};
    ghost use Rattle.offer_io.specs.Stores.{Opens, Reads, Creates, Appends, Seals};

    ghost view = { ready_view };

    fn open(&mut self, name: &str) -> Result<(), Failed>
        ensures opens { Opens (ready_view self.old) name.now result (ready_view self.new) }
        ensures shelf { Opens (shelf_of self.old) name.now result (shelf_of self.new) }
        ensures held { OnOk result (Contains (ready_view self.old).held name.now) }
        ensures faults { (ready_view self.new).faults
            ≡ count_after result (ready_view self.old).faults }
    {
        match entries::place_of(&self.files, name.as_bytes()) {
            Some(place) => {
                self.input = Some((place, 0));
                Ok(())
            }
            None => {
                self.input = None;
                self.faults = self.faults.saturating_add(1);
                Err(Failed)
            }
        }
    }

    fn read(&mut self, piece: &mut [u8]) -> Result<usize, Failed>
        requires { IsTrue (ready_view self.old).reading }
        ensures shelf { Reads (shelf_of self.old) result piece.new (shelf_of self.new) }
        ensures reads { Reads (ready_view self.old) result piece.new (ready_view self.new) }
        ensures faults { (ready_view self.new).faults ≡ (ready_view self.old).faults }
    {
        let Some((place, from)) = self.input else {
            unreachable!();
        };
        let rest = entries::rest_at(&self.files, place, from);
        let count = entries::fill(rest, piece, usize::MAX);
        self.input = Some((place, from + count));
        Ok(count)
    }

    fn create(&mut self, name: &str) -> Result<(), Failed>
        ensures shelf { shelf_of self.new ≡ shelf_of self.old }
        ensures creates { Creates (ready_view self.old) name.now result (ready_view self.new) }
        ensures faults { (ready_view self.new).faults ≡ (ready_view self.old).faults }
    {
        let _ = name;
        self.writing = true;
        self.sealed = false;
        Ok(())
    }

    fn append(&mut self, piece: &[u8]) -> Result<(), Failed>
        requires { IsTrue (ready_view self.old).writing }
        ensures shelf { shelf_of self.new ≡ shelf_of self.old }
        ensures appends { Appends (ready_view self.old) piece.now result (ready_view self.new) }
        ensures faults { (ready_view self.new).faults ≡ (ready_view self.old).faults }
    {
        let _ = piece;
        Ok(())
    }

    fn seal(&mut self) -> Result<(), Failed>
        requires { IsTrue (ready_view self.old).writing }
        ensures shelf { shelf_of self.new ≡ shelf_of self.old }
        ensures seals { Seals (ready_view self.old) result (ready_view self.new) }
        ensures faults { (ready_view self.new).faults ≡ (ready_view self.old).faults }
    {
        self.writing = false;
        self.sealed = true;
        Ok(())
    }
}

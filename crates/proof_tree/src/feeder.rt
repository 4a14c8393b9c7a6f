//! Texts that come in pieces, as lines.
ghost use Rattle.std.specs.Prelude.{◌≡◌, ℕ, ◌↔◌, List, [], ◌∷◌, ◌++◌, IsTrue, IfOk};
ghost use Rattle.proof_tree.specs.Feeding.{Takes, LeadsBy, Awaits};

use crate::machine::{LineMachine, MOST_LINE};
use offer_model::{Bytes, NoMemory};
use std::alloc::Global;
use std::marker::Model;

/// Cuts a text, which comes in pieces of any size, into lines for a machine. Contracts see the machine and the bytes of the
/// line that has begun.
#[derive(Drop)]
pub struct Feeder<M> {
    machine: M,
    begun: Bytes,
}

impl<M> Model for Feeder<M> {
    ghost use Rattle.proof_tree.specs.Feeding.{FeederData, IsBegun};

    ghost Value = { FeederData M };

    ghost view = { λ f. record { machine = f.machine; begun = f.begun.items } };

    ghost invariant = { λ f. IsBegun f.begun };
}

impl<M: LineMachine> Feeder<M> {
    /// A feeder that has read nothing. It takes all its memory here.
    pub fn new(alloc: Global, machine: M) -> Result<Feeder<M>, NoMemory>
    where
        M: Drop,
        ensures first { IfOk result (λ f. (r : List ℕ) → Takes M.waits f r ↔ Awaits (M.waits machine) r) }
    {
        let mut begun = Bytes::new(alloc);
        begun.reserve(MOST_LINE)?;
        Ok(Feeder { machine, begun })
    }

    /// Takes the line that has come whole.
    fn take_line(&mut self)
        ensures { LeadsBy M.waits (10 ∷ []) self.old self.new }
    {
        self.machine.take(self.begun.as_slice());
        self.begun.clear();
    }

    /// Takes the next byte.
    fn take_byte(&mut self, byte: u8)
        ensures { LeadsBy M.waits (byte ∷ []) self.old self.new }
    {
        if byte == b'\n' {
            return self.take_line();
        }
        if self.begun.len() == MOST_LINE {
            return self.machine.refuse();
        }
        self.begun.push(byte);
    }

    /// Takes the next piece of the text.
    pub fn feed(&mut self, piece: &[u8])
        ensures { (r : List ℕ) → Takes M.waits self.new r ↔ Takes M.waits self.old (piece.now ++ r) }
    {
        for byte in piece {
            self.take_byte(*byte);
        }
    }

    /// The machine.
    pub fn machine(&self) -> &M
        ensures { result.now ≡ self.now.machine }
    {
        &self.machine
    }

    /// Whether the pieces, joined, are all that was waited for.
    pub fn is_complete(&self) -> bool
        ensures { IsTrue result ↔ Takes M.waits self.now [] }
    {
        if self.begun.len() != 0 {
            return false;
        }
        self.machine.is_at_end()
    }
}

//! The checker of certificates.
ghost use Rattle.std.specs.Prelude.{◌≡◌, ℕ, ◌↔◌, List, [], ◌++◌, IfOk, IsTrue};
ghost use Rattle.proof_lines.specs.Acceptance.{Accepts, AcceptsChain};
ghost use Rattle.proof_check.specs.Waiting.{Takes, HasFrames};

use crate::machine::Machine;
use chain_check::ChainMachine;
use offer_model::{Chain, NoMemory, Problem};
use proof_tree::{EitherMachine, Feeder};
use std::alloc::Global;
use std::marker::Model;

/// Whether a text is accepted.
#[derive(Clone, Copy, Debug, PartialEq, Eq)]
pub enum Verdict {
    Yes,
    No,
}

/// A checker of one text, which comes in pieces. Contracts see what it waits for (`Takes`).
#[derive(Drop)]
pub struct Checker {
    feeder: Feeder<EitherMachine<Machine, ChainMachine>>,
}

impl Model for Checker {
    ghost use Rattle.proof_tree.specs.Feeding.{FeederData};
    ghost use Rattle.proof_check.specs.Waiting.{AnyMachine};

    ghost Value = { FeederData AnyMachine };

    ghost view = { λ c. c.feeder };
}

impl Checker {
    /// A checker of a problem's certificates that has read nothing. It takes all its memory here.
    pub fn for_problem(alloc: Global, p: &Problem) -> Result<Checker, NoMemory>
        ensures { IfOk result (λ checker. (r : List ℕ) → Takes checker r ↔ Accepts p.now r) }
    {
        let machine = Machine::new(alloc, p)?;
        let feeder = Feeder::new(alloc, EitherMachine::First(machine))?;
        Ok(Checker { feeder })
    }

    /// A checker of a chain's certificates that has read nothing. It takes all its memory here.
    pub fn for_chain(alloc: Global, chain: &Chain) -> Result<Checker, NoMemory>
        ensures { IfOk result (λ checker. (r : List ℕ) → Takes checker r ↔ AcceptsChain chain.now r) }
    {
        let machine = ChainMachine::new(alloc, chain)?;
        let feeder = Feeder::new(alloc, EitherMachine::Second(machine))?;
        Ok(Checker { feeder })
    }

    /// Takes the next piece of the text.
    pub fn feed(&mut self, piece: &[u8])
        ensures { (r : List ℕ) → Takes self.new r ↔ Takes self.old (piece.now ++ r) }
    {
        self.feeder.feed(piece);
    }

    /// How many branches are open.
    pub fn frames(&self) -> usize
        ensures { HasFrames self.now.machine result }
    {
        match self.feeder.machine() {
            EitherMachine::First(machine) => machine.frames(),
            EitherMachine::Second(_) => 0,
        }
    }

    /// Whether the pieces, joined, are accepted.
    pub fn finish(self) -> Verdict
        ensures { (result ≡ Verdict.Yes) ↔ Takes self [] }
    {
        verdict_of(self.feeder.is_complete())
    }
}

fn verdict_of(complete: bool) -> Verdict
    ensures { (result ≡ Verdict.Yes) ↔ IsTrue complete }
{
    if complete { Verdict::Yes } else { Verdict::No }
}

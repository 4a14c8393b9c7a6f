//! The machine of a chain's certificates.
ghost use Rattle.std.specs.Prelude.{◌≡◌, ℕ, ◌↔◌, List, IfOk};
ghost use Rattle.proof_lines.specs.Acceptance.{AcceptsChain};
ghost use Rattle.proof_tree.specs.Feeding.{Awaits};
ghost use Rattle.chain_check.specs.Waiting.{Waits};

use crate::judge::Judge;
use crate::stages::{Stage, after};
use offer_model::{Chain, NoMemory, Wide};
use proof_lines::read_line;
use proof_tree::{LineMachine, MOST_LINE};
use std::alloc::Global;
use std::marker::Model;

/// Reads a certificate of a chain line by line. Contracts see the chain and what is still to come.
#[derive(Drop)]
pub struct ChainMachine {
    stage: Stage,
    judge: Judge,
    numbers: Wide,
}

impl Model for ChainMachine {
    ghost use Rattle.proof_tree.specs.Stages.{HasNumbers};
    ghost use Rattle.chain_check.specs.Stages.{phase_at};
    ghost use Rattle.chain_check.specs.Waiting.{ChainMachineData};

    ghost Value = { ChainMachineData };

    ghost view = { λ m. record { chain = m.judge.chain; phase = phase_at m.stage m.judge } };

    ghost invariant = { λ m. HasNumbers m.numbers };
}

impl ChainMachine {
    /// A machine that has read nothing. It takes all its memory here.
    pub fn new(alloc: Global, chain: &Chain) -> Result<ChainMachine, NoMemory>
        ensures { IfOk result (λ m. (r : List ℕ) → Awaits (Waits m.chain m.phase) r ↔ AcceptsChain chain.now r) }
    {
        let mut numbers = Wide::new(alloc);
        numbers.reserve(MOST_LINE + 1)?;
        let judge = Judge::new(alloc, chain)?;
        Ok(ChainMachine {
            stage: Stage::Start,
            judge,
            numbers,
        })
    }
}

impl LineMachine for ChainMachine {
    ghost use Rattle.chain_check.specs.Waiting.{Waits};

    ghost waits = { λ m ls. Waits m.chain m.phase ls };

    fn take(&mut self, line: &[u8]) {
        let read = read_line(line, &mut self.numbers);
        self.stage = after(self.stage, line, read, &self.numbers, &mut self.judge);
    }

    fn refuse(&mut self) {
        self.stage = Stage::Refused;
    }

    fn is_at_end(&self) -> bool {
        self.stage == Stage::Ended
    }
}

//! The machine of certificates: a header, then a tree.
ghost use Rattle.std.specs.Prelude.{◌≡◌, ◌≤◌, [], ◌∷◌, IfOk};
ghost use Rattle.offer_model.specs.Problems.{product_count};
ghost use Rattle.offer_model.specs.Validity.{IsProblem};
ghost use Rattle.proof_tree.specs.Stages.{BranchesOpen};
ghost use Rattle.proof_check.specs.Waiting.{whole_tree};
ghost use Rattle.proof_check.specs.Waiting.HeadPhase.{at_start};

use crate::header::{Head, after};
use crate::problem_leaves::ProblemLeaves;
use offer_model::{NoMemory, Problem, Wide};
use proof_lines::read_line;
use proof_tree::{LineMachine, MOST_LINE, TreeProgress};
use std::alloc::Global;
use std::marker::Model;

/// Reads a certificate of a problem line by line. Contracts see the problem and what is still to come.
#[derive(Drop)]
pub(crate) struct Machine {
    head: Head,
    leaves: ProblemLeaves,
    tree: TreeProgress,
    numbers: Wide,
}

impl Model for Machine {
    ghost use Rattle.proof_tree.specs.Stages.{phase_of};
    ghost use Rattle.proof_check.specs.Headers.{head_phase, IsMachine};
    ghost use Rattle.proof_check.specs.Waiting.{MachineData};

    ghost Value = { MachineData };

    ghost view = { λ m. record { problem = m.leaves.problem; head = head_phase m.head m.leaves.set; tree = phase_of m.tree } };

    ghost invariant = { λ m. IsMachine m.leaves.problem m.tree m.numbers };
}

impl Machine {
    /// A machine that has read nothing. It takes all its memory here.
    pub(crate) fn new(alloc: Global, p: &Problem) -> Result<Machine, NoMemory>
        ensures valid { IfOk result (λ m. IsProblem m.problem) }
        ensures problem { IfOk result (λ m. m.problem ≡ p.now) }
        ensures head { IfOk result (λ m. m.head ≡ at_start) }
        ensures tree { IfOk result (λ m. m.tree ≡ whole_tree m.problem) }
    {
        let tree = TreeProgress::new(alloc, p.products().len())?;
        let mut numbers = Wide::new(alloc);
        numbers.reserve(MOST_LINE + 1)?;
        let leaves = ProblemLeaves::new(alloc, p)?;
        Ok(Machine {
            head: Head::Start,
            leaves,
            tree,
            numbers,
        })
    }

    /// How many branches are open.
    pub(crate) fn frames(&self) -> usize
        ensures branches { BranchesOpen self.now.tree result }
        ensures most { result ≤ product_count self.now.problem }
    {
        self.tree.frames()
    }
}

impl LineMachine for Machine {
    ghost use Rattle.proof_check.specs.Waiting.{Waits};

    ghost waits = { λ m ls. Waits m.problem m.head m.tree ls };

    fn take(&mut self, line: &[u8]) {
        if self.head == Head::Tree {
            return self.tree.take(&mut self.leaves, line, &mut self.numbers);
        }
        let read = read_line(line, &mut self.numbers);
        self.head = after(self.head, line, read, &self.numbers, &mut self.leaves);
    }

    fn refuse(&mut self) {
        self.head = Head::Refused;
    }

    fn is_at_end(&self) -> bool {
        self.head == Head::Tree && self.tree.is_at_end()
    }
}

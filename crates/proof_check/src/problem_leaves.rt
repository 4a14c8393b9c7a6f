//! The leaves of certificates of a problem, under its model.
ghost use Rattle.std.specs.Prelude.{◌≡◌, ◌↔◌, length, IfOk, IsTrue};
ghost use Rattle.offer_model.specs.Problems.{product_count};
ghost use Rattle.offer_model.specs.Limits.{IsFeasible};
ghost use Rattle.offer_model.specs.Validity.{IsProblem};
ghost use Rattle.proof_lines.specs.Lines.{AreDigits};
ghost use Rattle.proof_lines.specs.Acceptance.{digits_of, value_numbers};

use crate::ratio_leaves::RatioLeaves;
use crate::segment_leaves::SegmentLeaves;
use offer_model::{ModelName, NoMemory, Node, Problem, Wide};
use proof_lines::Shape;
use proof_tree::{EitherLeaves, Leaves};
use std::alloc::Global;
use std::marker::Model;

/// The leaves of a problem under its model, judged by an assortment. Contracts see these two.
#[derive(Drop)]
pub(crate) struct ProblemLeaves {
    rule: EitherLeaves<RatioLeaves, SegmentLeaves>,
}

impl Model for ProblemLeaves {
    ghost use Rattle.proof_check.specs.Judging.{LeavesData, data_of};

    ghost Value = { LeavesData };

    ghost view = { λ s. data_of s.rule };
}

impl ProblemLeaves {
    /// The leaves that are judged by the empty assortment.
    pub(crate) fn new(alloc: Global, p: &Problem) -> Result<ProblemLeaves, NoMemory>
        ensures valid { IfOk result (λ s. IsProblem s.problem) }
        ensures problem { IfOk result (λ s. s.problem ≡ p.now) }
    {
        let rule = match p.model() {
            ModelName::Mixed => EitherLeaves::Second(SegmentLeaves::new(alloc, p)?),
            _ => EitherLeaves::First(RatioLeaves::new(alloc, p)?),
        };
        Ok(ProblemLeaves { rule })
    }

    fn problem(&self) -> &Problem
        ensures { result.now ≡ self.now.problem }
    {
        match &self.rule {
            EitherLeaves::First(leaves) => leaves.problem(),
            EitherLeaves::Second(leaves) => leaves.problem(),
        }
    }

    /// How many products there are.
    pub(crate) fn products(&self) -> usize
        ensures { result ≡ product_count self.now.problem }
    {
        self.problem().products().len()
    }

    /// The problem's model.
    pub(crate) fn model(&self) -> ModelName
        ensures { result ≡ self.now.problem.model }
    {
        self.problem().model()
    }

    /// Judges by the assortment of these digits from now on, and says whether it is feasible.
    pub(crate) fn judge_by(&mut self, digits: &Wide) -> bool
        requires digits { AreDigits digits.now.items }
        requires each { length digits.now.items ≡ product_count self.old.problem }
        ensures set { digits_of self.new.set ≡ digits.now.items }
        ensures problem { self.new.problem ≡ self.old.problem }
        ensures feasible { IsTrue result ↔ IsFeasible self.old.problem self.new.set }
    {
        match &mut self.rule {
            EitherLeaves::First(leaves) => leaves.judge_by(digits),
            EitherLeaves::Second(leaves) => leaves.judge_by(digits),
        }
    }

    /// Whether the numbers of a value line are true of the assortment.
    pub(crate) fn says(&self, numbers: &Wide) -> bool
        ensures { IsTrue result ↔ (numbers.now.items ≡ value_numbers self.now.problem self.now.set) }
    {
        match &self.rule {
            EitherLeaves::First(leaves) => leaves.says(numbers),
            EitherLeaves::Second(leaves) => leaves.says(numbers),
        }
    }
}

impl Leaves for ProblemLeaves {
    ghost use Rattle.offer_model.specs.Problems.{product_count as count_of};
    ghost use Rattle.proof_tree.specs.LineLeaves.{LeafCloses, leaf_no_branch};

    ghost products = { λ s. count_of s.problem };

    ghost Closes = { λ s node l. LeafCloses s.problem s.set node l };

    fn close(&mut self, node: &Node, line: &[u8], shape: Option<Shape>, numbers: &Wide) -> bool {
        self.rule.close(node, line, shape, numbers)
    }

    ghost no_branch = { λ s node l. leaf_no_branch s.problem s.set node l };
}

//! The leaves of certificates under mixed logit.
ghost use Rattle.std.specs.Prelude.{◌≡◌, ◌↔◌, [], ◌∷◌, length, IfOk, IsTrue};
ghost use Rattle.offer_model.specs.Problems.{product_count};
ghost use Rattle.offer_model.specs.Limits.{IsFeasible};
ghost use Rattle.offer_model.specs.Validity.{IsProblem};
ghost use Rattle.proof_lines.specs.Lines.{AreDigits};
ghost use Rattle.proof_lines.specs.Acceptance.{digits_of, value_numbers};

use crate::claim::is_feasible;
use crate::segments::close;
use offer_model::{Assortment, ModelName, NoMemory, Node, Problem, Wide, mixed_value};
use proof_lines::Shape;
use proof_tree::{Leaves, write_set};
use std::alloc::Global;
use std::marker::Model;

/// The leaves of a problem, judged by an assortment, with what it brings in all segments. Contracts see the problem and the
/// assortment.
#[derive(Drop)]
pub(crate) struct SegmentLeaves {
    problem: Problem,
    set: Assortment,
    value: u128,
}

impl Model for SegmentLeaves {
    ghost use Rattle.proof_check.specs.Judging.{LeavesData, IsMixed};

    ghost Value = { LeavesData };

    ghost view = { λ s. record { problem = s.problem; set = s.set } };

    ghost invariant = { λ s. IsMixed s.problem s.set s.value };
}

impl SegmentLeaves {
    /// The leaves that are judged by the empty assortment.
    pub(crate) fn new(alloc: Global, p: &Problem) -> Result<SegmentLeaves, NoMemory>
        requires { p.now.model ≡ ModelName.Mixed }
        ensures { IfOk result (λ s. s.problem ≡ p.now) }
    {
        let problem = p.copy(alloc)?;
        let set = Assortment::empty(alloc, problem.products().len())?;
        let value = mixed_value(&problem, &set);
        Ok(SegmentLeaves {
            problem,
            set,
            value,
        })
    }

    /// The problem.
    pub(crate) fn problem(&self) -> &Problem
        ensures { result.now ≡ self.now.problem }
    {
        &self.problem
    }

    /// Judges by the assortment of these digits from now on, and says whether it is feasible.
    pub(crate) fn judge_by(&mut self, digits: &Wide) -> bool
        requires digits { AreDigits digits.now.items }
        requires each { length digits.now.items ≡ product_count self.old.problem }
        ensures set { digits_of self.new.set ≡ digits.now.items }
        ensures problem { self.new.problem ≡ self.old.problem }
        ensures feasible { IsTrue result ↔ IsFeasible self.old.problem self.new.set }
    {
        write_set(digits, &mut self.set);
        self.value = mixed_value(&self.problem, &self.set);
        is_feasible(&self.problem, &self.set)
    }

    /// Whether the numbers of a value line are true of the assortment.
    pub(crate) fn says(&self, numbers: &Wide) -> bool
        ensures { IsTrue result ↔ (numbers.now.items ≡ value_numbers self.now.problem self.now.set) }
    {
        says_units(self.value, numbers)
    }
}

/// Whether a value line of these numbers says so many units.
fn says_units(value: u128, numbers: &Wide) -> bool
    ensures { IsTrue result ↔ (numbers.now.items ≡ 0 ∷ value ∷ []) }
{
    if numbers.len() != 2 {
        return false;
    }
    *numbers.get(0) == 0 && *numbers.get(1) == value
}

impl Leaves for SegmentLeaves {
    ghost use Rattle.offer_model.specs.Problems.{product_count as count_of};
    ghost use Rattle.proof_tree.specs.LineLeaves.{LeafCloses, leaf_no_branch};

    ghost products = { λ s. count_of s.problem };

    ghost Closes = { λ s node l. LeafCloses s.problem s.set node l };

    fn close(&mut self, node: &Node, _line: &[u8], shape: Option<Shape>, numbers: &Wide) -> bool {
        match shape {
            Some(shape) => close(&self.problem, &self.set, self.value, node, shape, numbers),
            None => false,
        }
    }

    ghost no_branch = { λ s node l. leaf_no_branch s.problem s.set node l };
}

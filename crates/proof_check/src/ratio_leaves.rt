//! The leaves of certificates under logit and generalised attraction.
ghost use Rattle.std.specs.Prelude.{◌≡◌, ◌≤◌, ◌↔◌, length, IfOk, IsTrue};
ghost use Rattle.offer_model.specs.Problems.{product_count};
ghost use Rattle.offer_model.specs.Limits.{IsFeasible};
ghost use Rattle.offer_model.specs.Validity.{IsRatioModel};
ghost use Rattle.proof_lines.specs.Lines.{AreDigits};
ghost use Rattle.proof_lines.specs.Acceptance.{digits_of, value_numbers};
ghost use Rattle.proof_check.specs.Judging.{AreOwnWeights};

use crate::claim::{is_feasible, says_value};
use crate::leaf::Leaves as LeafRoom;
use linear_step::{Weights, weights_at};
use offer_model::{Assortment, NoMemory, Node, Problem, Wide, revenue};
use proof_lines::Shape;
use proof_tree::{Leaves, write_set};
use std::alloc::Global;
use std::marker::Model;

/// The leaves of a problem, judged by an assortment, with its weights. Contracts see these two.
#[derive(Drop)]
pub(crate) struct RatioLeaves {
    problem: Problem,
    set: Assortment,
    weights: Weights,
    room: LeafRoom,
}

impl Model for RatioLeaves {
    ghost use Rattle.proof_check.specs.Judging.{LeavesData, IsRatio};

    ghost Value = { LeavesData };

    ghost view = { λ s. record { problem = s.problem; set = s.set } };

    ghost invariant = { λ s. IsRatio s.problem s.set s.weights s.room };
}

/// Puts the weights at what the assortment earns.
fn weigh(p: &Problem, x: &Assortment, weights: &mut Weights)
    requires model { IsRatioModel p.now.model }
    requires set { length x.now ≡ product_count p.now }
    requires room { product_count p.now ≤ weights.old.room }
    ensures own { AreOwnWeights p.now x.now weights.new }
    ensures room { product_count p.now ≤ weights.new.room }
{
    let own = revenue(p, x);
    weights_at(p, own.num, own.den, weights);
}

impl RatioLeaves {
    /// The leaves that are judged by the empty assortment.
    pub(crate) fn new(alloc: Global, p: &Problem) -> Result<RatioLeaves, NoMemory>
        requires { IsRatioModel p.now.model }
        ensures { IfOk result (λ s. s.problem ≡ p.now) }
    {
        let n = p.products().len();
        let set = Assortment::empty(alloc, n)?;
        let mut weights = Weights::reserve(alloc, n)?;
        let problem = p.copy(alloc)?;
        weigh(&problem, &set, &mut weights);
        let room = LeafRoom::new(alloc, &problem)?;
        Ok(RatioLeaves {
            problem,
            set,
            weights,
            room,
        })
    }

    /// The problem.
    pub(crate) fn problem(&self) -> &Problem
        ensures { result.now ≡ self.now.problem }
    {
        &self.problem
    }

    /// Judges by the assortment of these digits from now on, and says whether it is feasible.
    pub(crate) fn judge_by(&mut self, digits: &Wide) -> bool
        requires digits { AreDigits digits.now.items }
        requires each { length digits.now.items ≡ product_count self.old.problem }
        ensures set { digits_of self.new.set ≡ digits.now.items }
        ensures problem { self.new.problem ≡ self.old.problem }
        ensures feasible { IsTrue result ↔ IsFeasible self.old.problem self.new.set }
    {
        write_set(digits, &mut self.set);
        weigh(&self.problem, &self.set, &mut self.weights);
        is_feasible(&self.problem, &self.set)
    }

    /// Whether the numbers of a value line are true of the assortment.
    pub(crate) fn says(&self, numbers: &Wide) -> bool
        ensures { IsTrue result ↔ (numbers.now.items ≡ value_numbers self.now.problem self.now.set) }
    {
        says_value(&self.problem, &self.set, numbers)
    }
}

impl Leaves for RatioLeaves {
    ghost use Rattle.offer_model.specs.Problems.{product_count as count_of};
    ghost use Rattle.proof_tree.specs.LineLeaves.{LeafCloses, leaf_no_branch};

    ghost products = { λ s. count_of s.problem };

    ghost Closes = { λ s node l. LeafCloses s.problem s.set node l };

    fn close(&mut self, node: &Node, _line: &[u8], shape: Option<Shape>, numbers: &Wide) -> bool {
        match shape {
            Some(shape) => self.room.close(
                &self.problem,
                &self.set,
                &self.weights,
                node,
                shape,
                numbers,
            ),
            None => false,
        }
    }

    ghost no_branch = { λ s node l. leaf_no_branch s.problem s.set node l };
}

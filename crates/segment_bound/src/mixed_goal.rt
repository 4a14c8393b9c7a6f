//! The goal of mixed logit: the assortment that brings most in all segments together.
ghost use Rattle.std.specs.Prelude.{◌≡◌, length, pos, IfOk};
ghost use Rattle.offer_model.specs.declared.products.ModelName.TheVariants.{Mixed};
ghost use Rattle.offer_model.specs.Problems.{product_count};
ghost use Rattle.tree_search.specs.AnswerRanges.{AnswersInRange};
ghost use Rattle.segment_bound.specs.Kept.{Fits};
ghost use Rattle.segment_bound.specs.MixedGoals.{mixed_rules, greatest_sum};

use crate::bounds::Bounds;
use crate::sums::sum_of;
use limit_rules::{clashes, first_broken};
use offer_model::{Assortment, NoMemory, Node, Problem, mixed_value};
use std::alloc::Global;
use std::marker::Model;
use tree_search::Goal;

/// The feasible assortments of a problem of mixed logit, and what each brings in all segments together.
#[derive(Drop)]
pub struct MixedGoal<'a> {
    problem: &'a Problem,
    bounds: Bounds,
    greatest: Vec<u64>,
}

impl<'a> Model for MixedGoal<'a> {
    ghost use Rattle.std.specs.Prelude.{◌≡◌, length};
    ghost use Rattle.offer_model.specs.Problems.{ProblemData};
    ghost use Rattle.segment_bound.specs.Kept.{Fits};

    ghost Value = { ProblemData };

    ghost view = { λ g. g.problem.now };

    ghost invariant = { λ g. Fits g.problem.now g.bounds × (length g.greatest.items ≡ length g.problem.now.segments) };
}

impl<'a> MixedGoal<'a> {
    #[tactic(auto, using(crate::proofs::GoalLemmas::mixed_in_range))]
    /// The goal of a problem. Its values and bounds are from 0 to 2^60.
    pub fn prepare(alloc: Global, problem: &'a Problem) -> Result<MixedGoal<'a>, NoMemory>
        requires model { problem.now.model ≡ Mixed }
        ensures goal { IfOk result (λ g. g ≡ problem.now) }
        ensures range { AnswersInRange (mixed_rules problem.now) }
    {
        let segments = problem.segments();
        let bounds = Bounds::prepare(alloc, problem)?;
        let greatest = vec![in alloc; 0; segments.len()]?;
        Ok(MixedGoal {
            problem,
            bounds,
            greatest,
        })
    }
}

/// The sum of the greatest values of the node's completions.
fn bound_of(bounds: &mut Bounds, p: &Problem, node: &Node, greatest: &mut [u64]) -> i128
    requires fits { Fits p.now bounds.old }
    requires node { length node.now ≡ product_count p.now }
    requires each { length greatest.old ≡ length p.now.segments }
    ensures bound { result ≡ pos (greatest_sum p.now node.now) }
    ensures same { bounds.new ≡ bounds.old }
    ensures each { length greatest.new ≡ length greatest.old }
{
    bounds.bounds(p, node, greatest);
    sum_of(greatest) as i128
}

impl Goal for MixedGoal<'_> {
    ghost use Rattle.segment_bound.specs.MixedGoals.{mixed_rules};
    ghost use Rattle.segment_bound.specs.MixedLaws.{mixed_lawful};

    ghost rules = { mixed_rules };

    fn products(&self) -> usize {
        self.problem.products().len()
    }

    fn value(&self, x: &Assortment) -> i128 {
        mixed_value(self.problem, x) as i128
    }

    fn feasible(&self, x: &Assortment) -> bool {
        first_broken(self.problem, x).is_none()
    }

    fn clash(&self, node: &Node) -> bool {
        clashes(self.problem, node)
    }

    fn bound(&mut self, node: &Node) -> i128 {
        bound_of(&mut self.bounds, self.problem, node, &mut self.greatest)
    }

    fn next(&self, node: &Node) -> Option<usize> {
        self.bounds.dearest_open(self.problem, node)
    }

    fn fork(&self, alloc: Global) -> Result<Self, NoMemory> {
        MixedGoal::prepare(alloc, self.problem)
    }

    ghost lawful = { mixed_lawful };
}

//! The goal that the step searches: feasible completions of a node, and what they weigh.
ghost use Rattle.std.specs.Prelude.{◌≡◌, ◌↔◌, ◌-◌, ◌^◌, ◌<◌, length, IsTrue, pos, ◌+ℤ◌, cond};
ghost use Rattle.offer_model.specs.Problems.{product_count};
ghost use Rattle.offer_model.specs.Nodes.{Agrees, Completes};
ghost use Rattle.offer_model.specs.Prices.{worth_of};
ghost use Rattle.linear_weights.specs.Weights.{IsWithin, AreWeights, prices_of};
ghost use Rattle.several_step.specs.WeightGoals.{is_opposite, Disagrees, AreBounds};

use crate::branch_order::Ranked;
use crate::branching::next_by;
use crate::chains::bound_by_chains;
use crate::rungs::Rung;
use limit_rules::{clashes, first_broken};
use linear_weights::Weights;
use offer_model::{Assortment, Mark, NoMemory, Node, Problem};
use std::alloc::Global;
use std::marker::Model;
use tree_search::Goal;

/// The feasible completions of the root and what they weigh, and what bounds them: a list of relaxed prices, and ladders.
#[derive(Clone, Copy)]
pub struct Completions<'a> {
    pub problem: &'a Problem,
    pub weights: &'a Weights,
    pub root: &'a Node,
    pub list: &'a Weights,
    pub rungs: &'a [Rung],
    pub limited: &'a [bool],
    pub order: &'a [Ranked],
    ghost bounds: { AreBounds problem.now weights.now list.now rungs.now limited.now },
    ghost root_long: { length root.now ≡ product_count problem.now },
}

/// The goal of these completions, with room for a number a product. A node's bound is that of the list, by the best chains of
/// ladders.
#[derive(Drop)]
pub struct WeightsGoal<'a> {
    pub of: Completions<'a>,
    pub ends: Vec<i128>,
}

impl<'a> Model for WeightsGoal<'a> {
    ghost use Rattle.std.specs.Prelude.{◌≡◌, length};
    ghost use Rattle.offer_model.specs.Problems.{product_count};
    ghost use Rattle.several_step.specs.WeightGoals.{GoalData};

    ghost Value = { GoalData };

    ghost view = { λ g. record {
      problem = g.of.problem.now;
      weights = g.of.weights.now;
      root = g.of.root.now;
      list = g.of.list.now;
      rungs = g.of.rungs.now;
      limited = g.of.limited.now;
      order = g.of.order.now;
      bounds = g.of.bounds;
      root_long = g.of.root_long;
    } };

    ghost invariant = { λ g. length g.ends.items ≡ product_count g.of.problem.now };
}

/// Whether one mark is In and the other Out.
fn is_opposite(a: Mark, b: Mark) -> bool
    ensures { result ≡ is_opposite a b }
{
    match a {
        Mark::In => b == Mark::Out,
        Mark::Out => b == Mark::In,
        Mark::Open => false,
    }
}

/// Whether the nodes settle some product in opposite ways.
fn disagrees(root: &Node, node: &Node) -> bool
    requires { length root.now ≡ length node.now }
    ensures { IsTrue result ↔ Disagrees root.now node.now }
{
    for i in 0..node.len() {
        if is_opposite(root.mark(i), node.mark(i)) {
            return true;
        }
    }
    false
}

/// Whether what is offered agrees with the mark.
fn agrees(mark: Mark, offered: bool) -> bool
    ensures { IsTrue result ↔ Agrees mark offered }
{
    match mark {
        Mark::In => offered,
        Mark::Out => !offered,
        Mark::Open => true,
    }
}

/// Whether the assortment completes the node.
pub fn completes(node: &Node, x: &Assortment) -> bool
    requires { length node.now ≡ length x.now }
    ensures { IsTrue result ↔ Completes node.now x.now }
{
    for i in 0..x.len() {
        if !agrees(node.mark(i), x.offers(i)) {
            return false;
        }
    }
    true
}

impl Goal for WeightsGoal<'_> {
    ghost use Rattle.several_step.specs.WeightGoals.{rules_of};
    ghost use Rattle.several_step.specs.WeightLaws.{weights_lawful};

    ghost rules = { rules_of };

    fn products(&self) -> usize {
        self.of.problem.products().len()
    }

    fn value(&self, x: &Assortment) -> i128 {
        self.of.weights.worth(self.of.problem, x)
    }

    fn feasible(&self, x: &Assortment) -> bool {
        first_broken(self.of.problem, x).is_none() && completes(self.of.root, x)
    }

    fn clash(&self, node: &Node) -> bool {
        clashes(self.of.problem, node) || disagrees(self.of.root, node)
    }

    fn bound(&mut self, node: &Node) -> i128 {
        bound_by_chains(
            self.of.problem,
            node,
            self.of.list,
            self.of.rungs,
            self.of.limited,
            &mut self.ends,
        )
    }

    fn next(&self, node: &Node) -> Option<usize> {
        next_by(self.of.problem, self.of.order, node)
    }

    fn fork(&self, alloc: Global) -> Result<Self, NoMemory> {
        let ends = vec![in alloc; 0i128; self.of.problem.products().len()]?;
        Ok(WeightsGoal { of: self.of, ends })
    }

    ghost lawful = { weights_lawful };
}

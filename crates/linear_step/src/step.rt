//! What a step and a closer promise.
ghost use Rattle.std.specs.Prelude.{◌≡◌, ◌+◌, ◌↔◌, length, IfOk};
ghost use Rattle.offer_model.specs.Problems.{ProblemData, product_count};
ghost use Rattle.linear_weights.specs.Weights.{prices_of, AreWeights};
ghost use Rattle.linear_step.specs.Answers.{Answers, AnswersFrom};
ghost use Rattle.linear_step.specs.Closings.{Closes};

use crate::closing::Closing;
use crate::steps::Steps;
use linear_weights::Weights;
use offer_model::{Assortment, NoMemory, Node, Problem};
use std::sync::ledger::Ledger;

/// Finds a feasible completion of greatest weight. A step holds the allocator that it takes memory from.
pub trait Step<L: Ledger> {
    /// The step fits the problem.
    ghost fits: { Self → ProblemData → Type 0 };

    /// A feasible completion of the node with the greatest weight, or none where no feasible assortment completes it.
    fn best(
        &mut self,
        p: &Problem,
        weights: &Weights,
        node: &Node,
        steps: &mut Steps<L>,
    ) -> Result<Option<Assortment>, NoMemory>
        requires fits { fits self.old p.now }
        requires weights { AreWeights p.now weights.now }
        requires node { length node.now ≡ product_count p.now }
        ensures fits { (q : ProblemData) → fits self.old q ↔ fits self.new q }
        ensures count { steps.new ≡ steps.old + 1 }
        ensures answer { IfOk result (Answers p.now (prices_of weights.now) node.now) };

    /// A feasible completion of the node with the greatest weight, where that reaches the floor, else none. A step that can
    /// end sooner where no completion reaches the floor has a body of its own.
    fn best_from(
        &mut self,
        p: &Problem,
        weights: &Weights,
        node: &Node,
        floor: i128,
        steps: &mut Steps<L>,
    ) -> Result<Option<Assortment>, NoMemory>
        requires fits { fits self.old p.now }
        requires weights { AreWeights p.now weights.now }
        requires node { length node.now ≡ product_count p.now }
        ensures fits { (q : ProblemData) → fits self.old q ↔ fits self.new q }
        ensures count { steps.new ≡ steps.old + 1 }
        ensures answer { IfOk result (AnswersFrom p.now (prices_of weights.now) node.now floor) }
    {
        let Some(x) = self.best(p, weights, node, steps)? else {
            return Ok(None);
        };
        if weights.worth(p, &x) < floor {
            return Ok(None);
        }
        Ok(Some(x))
    }
}

/// Closes nodes by the greatest weight of their feasible completions. It holds the allocator that it takes memory from.
pub trait Closer {
    /// The closer fits the problem.
    ghost fits: { Self → ProblemData → Type 0 };

    /// A clash exactly where the node clashes, else a closing whose bound is the greatest weight.
    fn close(&mut self, p: &Problem, weights: &Weights, node: &Node) -> Result<Closing, NoMemory>
        requires fits { fits self.old p.now }
        requires weights { AreWeights p.now weights.now }
        requires node { length node.now ≡ product_count p.now }
        ensures fits { (q : ProblemData) → fits self.old q ↔ fits self.new q }
        ensures answer { IfOk result (Closes p.now (prices_of weights.now) node.now) };
}

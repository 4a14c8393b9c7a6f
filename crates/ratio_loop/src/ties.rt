//! The tie pass: of assortments that earn as much, the one that is before the others.
ghost use Rattle.std.specs.Prelude.{◌≡◌, ◌+◌, ◌≤◌, ◌↔◌, length, IfOk};
ghost use Rattle.offer_model.specs.Problems.{ProblemData, product_count};
ghost use Rattle.offer_model.specs.Ranges.{IsInBounds};
ghost use Rattle.offer_model.specs.Validity.{IsRatioModel};
ghost use Rattle.offer_model.specs.Nodes.{open_node};
ghost use Rattle.offer_model.specs.Best.{IsBest};
ghost use Rattle.linear_step.specs.Weights.{AreWeights, AreAt};
ghost use Rattle.ratio_loop.specs.Earnings.{IsGreatestRevenue};
ghost use Rattle.ratio_loop.specs.Trials.{EarnsMost, AreAtOwn};
ghost use Rattle.ratio_loop.specs.Ties.{AnswersAt};

use linear_step::{Step, Steps, Weights};
use offer_model::{Assortment, Fraction, Mark, NoMemory, Node, Problem, revenue};
use std::sync::ledger::Ledger;

/// What an assortment weighs, at the greatest revenue, that earns it. No other weighs more.
const EQUAL: i128 = 0;

/// A feasible completion that earns the greatest revenue, if there is one. The weights are those at the revenue.
fn completion_at<L: Ledger, T: Step<L>>(
    step: &mut T,
    p: &Problem,
    at: Fraction,
    weights: &Weights,
    node: &Node,
    steps: &mut Steps<L>,
) -> Result<Option<Assortment>, NoMemory>
    requires model { IsRatioModel p.now.model }
    requires fits { T.fits step.old p.now }
    requires greatest { IsGreatestRevenue p.now at }
    requires bounds { IsInBounds at }

    // The weights are those at this revenue, for a node of the problem.
    requires weights { AreWeights p.now weights.now }
    requires at { AreAt p.now at.num at.den weights.now }
    requires node { length node.now ≡ product_count p.now }

    // A step, and what it found where that earns the revenue.
    ensures fits { (q : ProblemData) → T.fits step.old q ↔ T.fits step.new q }
    ensures count { steps.new ≡ steps.old + 1 }
    ensures answer { IfOk result (AnswersAt p.now at node.now) }
{
    step.best_from(p, weights, node, EQUAL, steps)
}

/// The best assortment, from one that earns most and the weights at its revenue. In catalogue order each product is left
/// out where an assortment that earns as much remains.
pub fn first_of_equals<L: Ledger, T: Step<L>>(
    step: &mut T,
    p: &Problem,
    root: Node,
    top: Assortment,
    weights: &Weights,
    steps: &mut Steps<L>,
) -> Result<Assortment, NoMemory>
    requires model { IsRatioModel p.now.model }
    requires fits { T.fits step.old p.now }
    requires root { root ≡ open_node (product_count p.now) }
    requires most { EarnsMost p.now top }
    requires weights { AreAtOwn p.now top weights.now }
    ensures fits { (q : ProblemData) → T.fits step.old q ↔ T.fits step.new q }
    ensures trials { steps.new ≤ steps.old + product_count p.now }
    ensures best { IfOk result (IsBest p.now) }
{
    let at = revenue(p, &top);
    let mut node = root;
    let mut found = top;
    for i in 0..p.products().len() {
        node.set(i, Mark::Out);
        if found.offers(i) {
            match completion_at(step, p, at, weights, &node, steps)? {
                Some(other) => found = other,
                None => node.set(i, Mark::In),
            }
        }
    }
    Ok(found)
}

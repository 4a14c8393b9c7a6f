//! Trial revenues, each that of the assortment which was found before.
ghost use Rattle.std.specs.Prelude.{◌≡◌, ◌+◌, ◌≤◌, ◌↔◌, false, length, replicate, IfOk};
ghost use Rattle.offer_model.specs.Problems.{ProblemData, product_count};
ghost use Rattle.offer_model.specs.Validity.{IsRatioModel};
ghost use Rattle.offer_model.specs.Nodes.{open_node};
ghost use Rattle.ratio_loop.specs.Trials.{most_trials, EarnsMost, AreAtOwn};

use crate::earnings::is_same;
use linear_step::{Step, Steps, Weights, weights_at};
use offer_model::{Assortment, NoMemory, Node, Problem, revenue};
use std::sync::ledger::Ledger;

/// An assortment that earns most, from one that offers nothing; the weights are then those at its revenue. Each trial is
/// at the revenue of the assortment that was found before.
pub fn earning_most<L: Ledger, T: Step<L>>(
    step: &mut T,
    p: &Problem,
    root: &Node,
    first: Assortment,
    weights: &mut Weights,
    steps: &mut Steps<L>,
) -> Result<Assortment, NoMemory>
    requires model { IsRatioModel p.now.model }
    requires fits { T.fits step.old p.now }
    requires root { root.now ≡ open_node (product_count p.now) }
    requires first { first ≡ replicate (product_count p.now) false }
    requires room { product_count p.now ≤ weights.old.room }

    // It earns most, after at most so many steps, and the weights are at what it earns.
    ensures fits { (q : ProblemData) → T.fits step.old q ↔ T.fits step.new q }
    ensures trials { steps.new ≤ steps.old + most_trials }
    ensures most { IfOk result (EarnsMost p.now) }
    ensures weights { IfOk result (λ x. AreAtOwn p.now x weights.new) }
{
    let mut found = first;
    let mut at = revenue(p, &found);
    'trials: loop {
        weights_at(p, at.num, at.den, weights);
        let Some(next) = step.best(p, weights, root, steps)? else {
            return Ok(found);
        };
        let reached = revenue(p, &next);
        if is_same(reached, at) {
            return Ok(found);
        }
        found = next;
        at = reached;
    }
}

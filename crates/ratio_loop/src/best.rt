//! The trials, and then the tie pass.
ghost use Rattle.std.specs.Prelude.{◌+◌, ◌≤◌, ◌↔◌, IfOk};
ghost use Rattle.offer_model.specs.Problems.{ProblemData, product_count};
ghost use Rattle.offer_model.specs.Validity.{IsRatioModel};
ghost use Rattle.offer_model.specs.Best.{IsBest};
ghost use Rattle.ratio_loop.specs.Trials.{most_trials};

use crate::ties::first_of_equals;
use crate::trials::earning_most;
use linear_step::{Step, Steps, Weights};
use offer_model::{Assortment, NoMemory, Node, Problem};
use std::alloc::Global;
use std::sync::ledger::Ledger;

/// The best assortment under logit or generalised attraction: feasible, none earns more, and before every other that earns
/// as much. The step is called at most 80 times, and then at most once for each product; memory is taken for one
/// assortment, one node and one list of weights, and what the step takes.
pub fn best_ratio<L: Ledger, T: Step<L>>(
    alloc: Global,
    step: &mut T,
    p: &Problem,
    steps: &mut Steps<L>,
) -> Result<Assortment, NoMemory>
    requires model { IsRatioModel p.now.model }
    requires fits { T.fits step.old p.now }
    ensures best { IfOk result (IsBest p.now) }
    ensures fits { (q : ProblemData) → T.fits step.old q ↔ T.fits step.new q }
    ensures trials { steps.new ≤ steps.old + most_trials + product_count p.now }
{
    let count = p.products().len();
    let root = Node::open(alloc, count)?;
    let nothing = Assortment::empty(alloc, count)?;
    let mut weights = Weights::reserve(alloc, count)?;
    let top = earning_most(step, p, &root, nothing, &mut weights, steps)?;
    first_of_equals(step, p, root, top, &weights, steps)
}

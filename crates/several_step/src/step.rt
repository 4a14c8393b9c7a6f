//! The step under limits of several kinds.
ghost use Rattle.std.specs.Prelude.{◌≡◌, ◌↔◌, ℕ, ◌+◌, ◌≤◌, length, IfOk, vec_capacity};
ghost use Rattle.offer_model.specs.Problems.{ProblemData, product_count};
ghost use Rattle.linear_weights.specs.Weights.{AreWeights, prices_of};
ghost use Rattle.linear_step.specs.Answers.{AnswersFrom};
ghost use Rattle.several_step.specs.SearchFits.{FitsStep};

use crate::scaling::scale_up;
use crate::searching::Searching;
use linear_step::{Step, Steps};
use linear_weights::Weights;
use offer_model::{Assortment, NoMemory, Node, Problem};
use std::alloc::Global;
use std::marker::Brand;
use std::sync::ledger::Ledger;

/// The step of problems under limits of several kinds: a search over all completions, bounded by prices that multipliers of the
/// limits relax and by the best chains of ladders. Multipliers and the last answer are kept from call to call.
#[derive(Drop)]
pub struct SearchStep {
    searching: Searching,
    scaled: Weights,
}

impl SearchStep {
    /// A step that fits the problem, whatever the ledger. It takes all memory but that of searches.
    pub fn prepare(alloc: Global, p: &Problem) -> Result<SearchStep, NoMemory>
        ensures step { IfOk result (λ s. ⟦<SearchStep as Step<Brand>>⟧.fits s p.now) }
    {
        Ok(SearchStep {
            searching: Searching::prepare(alloc, p)?,
            scaled: Weights::reserve(alloc, p.products().len())?,
        })
    }

    /// A feasible completion of the node with the greatest weight, where that reaches the floor, else none. It searches by weights
    /// that are scaled up.
    fn answer<L: Ledger>(
        &mut self,
        p: &Problem,
        weights: &Weights,
        node: &Node,
        floor: i128,
        steps: &mut Steps<L>,
    ) -> Result<Option<Assortment>, NoMemory>
        requires fits { FitsStep p.now self.old.searching.bounding (vec_capacity self.old.searching.order) self.old.scaled }
        requires weights { AreWeights p.now weights.now }
        requires node { length node.now ≡ product_count p.now }
        ensures fits { (q : ProblemData)
            → FitsStep q self.old.searching.bounding (vec_capacity self.old.searching.order) self.old.scaled
            ↔ FitsStep q self.new.searching.bounding (vec_capacity self.new.searching.order) self.new.scaled }
        ensures count { steps.new ≡ steps.old + 1 }
        ensures answer { IfOk result (AnswersFrom p.now (prices_of weights.now) node.now floor) }
    {
        steps.tick();
        let raised = scale_up(p, weights, floor, &mut self.scaled);
        self.searching.search(p, &self.scaled, node, raised)
    }
}

impl<L: Ledger> Step<L> for SearchStep {
    ghost fits = { λ s p. FitsStep p s.searching.bounding (vec_capacity s.searching.order) s.scaled };

    fn best(
        &mut self,
        p: &Problem,
        weights: &Weights,
        node: &Node,
        steps: &mut Steps<L>,
    ) -> Result<Option<Assortment>, NoMemory> {
        self.answer(p, weights, node, i128::MIN, steps)
    }

    fn best_from(
        &mut self,
        p: &Problem,
        weights: &Weights,
        node: &Node,
        floor: i128,
        steps: &mut Steps<L>,
    ) -> Result<Option<Assortment>, NoMemory> {
        self.answer(p, weights, node, floor, steps)
    }
}

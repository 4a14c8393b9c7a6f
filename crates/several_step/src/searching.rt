//! The search of a step: what bounds it is made, and then it is begun.
ghost use Rattle.std.specs.Prelude.{◌≡◌, ◌↔◌, ℕ, ◌≤◌, length, IfOk, vec_capacity};
ghost use Rattle.offer_model.specs.Problems.{ProblemData, product_count};
ghost use Rattle.linear_weights.specs.Weights.{AreWeights, prices_of};
ghost use Rattle.linear_step.specs.Answers.{AnswersFrom};
ghost use Rattle.several_step.specs.SearchFits.{FitsSearch};

use crate::bounding::Bounding;
use crate::branch_order::{Ranked, rank};
use crate::weights_goal::{Completions, WeightsGoal};
use linear_weights::Weights;
use offer_model::{Assortment, NoMemory, Node, Problem};
use std::alloc::Global;
use tree_search::search_from;

/// What bounds the nodes of a search, and the order in which it divides them.
#[derive(Drop)]
pub struct Searching {
    alloc: Global,
    bounding: Bounding,
    order: Vec<Ranked>,
}

impl Searching {
    /// It takes all memory but that of searches.
    pub fn prepare(alloc: Global, p: &Problem) -> Result<Searching, NoMemory>
        ensures { IfOk result (λ s. FitsSearch p.now s.bounding (vec_capacity s.order)) }
    {
        let count = p.products().len();
        Ok(Searching {
            alloc,
            bounding: Bounding::prepare(alloc, p)?,
            order: Vec::with_capacity(alloc, count)?,
        })
    }

    /// A feasible completion of the node with the greatest weight, where that reaches the floor, else none.
    pub fn search(
        &mut self,
        p: &Problem,
        weights: &Weights,
        node: &Node,
        floor: i128,
    ) -> Result<Option<Assortment>, NoMemory>
        requires fits { FitsSearch p.now self.old.bounding (vec_capacity self.old.order) }
        requires weights { AreWeights p.now weights.now }
        requires node { length node.now ≡ product_count p.now }
        ensures fits { (q : ProblemData) → FitsSearch q self.old.bounding (vec_capacity self.old.order)
            ↔ FitsSearch q self.new.bounding (vec_capacity self.new.order) }
        ensures answer { IfOk result (AnswersFrom p.now (prices_of weights.now) node.now floor) }
    {
        let ends = vec![in self.alloc; 0i128; p.products().len()]?;
        self.bounding.relax(p, weights, node, floor);
        rank(
            p.products().len(),
            node,
            self.bounding.list(),
            &mut self.order,
        );
        let of = Completions {
            problem: p,
            weights,
            root: node,
            list: self.bounding.list(),
            rungs: self.bounding.rungs(),
            limited: self.bounding.limited(),
            order: &self.order,
        };
        let mut goal = WeightsGoal { of, ends };
        search_from(self.alloc, &mut goal, node, self.bounding.first(), floor)
    }
}

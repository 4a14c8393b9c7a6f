//! The step and the closer under caps.
ghost use Rattle.std.specs.Prelude.{◌≡◌, ◌↔◌, true, false, length, IfOk, vec_capacity};
ghost use Rattle.offer_model.specs.Problems.{ProblemData, product_count};
ghost use Rattle.offer_model.specs.Nodes.{Clashes};
ghost use Rattle.limit_rules.specs.Kinds.{kind_of};
ghost use Rattle.limit_rules.specs.declared.kind.Kind.TheVariants.{Caps};
ghost use Rattle.linear_step.specs.Weights.{AreWeights, weight_at};
ghost use Rattle.rank_step.specs.Caps.{AreCapPlaces};
ghost use Rattle.rank_step.specs.Greedy.{IsFilled};
ghost use Rattle.rank_step.specs.Fits.{FitsCaps};

use crate::candidates::Candidate;
use crate::greedy::fill;
use crate::multipliers::multipliers;
use crate::places::CapPlaces;
use crate::rooms::Rooms;
use linear_step::{Closer, Closing, Step, Steps, Weights};
use offer_model::{Assortment, NoMemory, Node, Problem};
use std::alloc::Global;
use std::marker::Brand;
use std::sync::ledger::Ledger;

/// The step of problems under caps: it offers what is In, and then what is Open from the greatest weight down, each product
/// where its caps have room.
#[derive(Drop)]
pub struct CapsStep {
    alloc: Global,
    places: CapPlaces,
    rooms: Rooms,
    candidates: Vec<Candidate>,
    filled: Assortment,
}

impl CapsStep {
    /// A step that fits the problem, whatever the ledger. It takes all memory but that of its answers.
    pub fn prepare(alloc: Global, p: &Problem) -> Result<CapsStep, NoMemory>
        requires kind { kind_of p.now.limits ≡ Caps }
        ensures step { IfOk result (λ s. ⟦<CapsStep as Step<Brand>>⟧.fits s p.now) }
        ensures closer { IfOk result (λ s. ⟦<CapsStep as Closer>⟧.fits s p.now) }
    {
        let count = p.products().len();
        let mut candidates = Vec::new(alloc);
        candidates.reserve(count)?;
        Ok(CapsStep {
            alloc,
            places: CapPlaces::of(alloc, p)?,
            rooms: Rooms::reserve(alloc, p)?,
            candidates,
            filled: Assortment::empty(alloc, count)?,
        })
    }

    /// Fills the node by rank. False where it clashes.
    fn fill(&mut self, p: &Problem, weights: &Weights, node: &Node) -> bool
        requires fits { FitsCaps p.now self.old.places self.old.rooms (vec_capacity self.old.candidates) self.old.filled }
        requires weights { AreWeights p.now weights.now }
        requires node { length node.now ≡ product_count p.now }
        ensures fits { (q : ProblemData)
            → FitsCaps q self.old.places self.old.rooms (vec_capacity self.old.candidates) self.old.filled
            ↔ FitsCaps q self.new.places self.new.rooms (vec_capacity self.new.candidates) self.new.filled }
        ensures places { AreCapPlaces p.now self.new.places }
        ensures filled { result ≡ true
            → IsFilled p.now node.now (weight_at weights.now) self.new.places self.new.filled self.new.rooms }
        ensures clash { result ≡ false → Clashes p.now node.now }
    {
        fill(
            p,
            weights,
            node,
            &self.places,
            &mut self.candidates,
            &mut self.filled,
            &mut self.rooms,
        )
    }
}

impl<L: Ledger> Step<L> for CapsStep {
    ghost fits = { λ s p. FitsCaps p s.places s.rooms (vec_capacity s.candidates) s.filled };

    fn best(
        &mut self,
        p: &Problem,
        weights: &Weights,
        node: &Node,
        steps: &mut Steps<L>,
    ) -> Result<Option<Assortment>, NoMemory> {
        steps.tick();
        if !self.fill(p, weights, node) {
            return Ok(None);
        }
        Ok(Some(self.filled.copy(self.alloc)?))
    }
}

impl Closer for CapsStep {
    ghost fits = { λ s p. FitsCaps p s.places s.rooms (vec_capacity s.candidates) s.filled };

    fn close(&mut self, p: &Problem, weights: &Weights, node: &Node) -> Result<Closing, NoMemory> {
        if !self.fill(p, weights, node) {
            return Ok(Closing::Clash);
        }
        let us = multipliers(self.alloc, &self.places, &self.rooms)?;
        Ok(Closing::Multipliers(us))
    }
}

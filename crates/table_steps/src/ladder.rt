//! The step and the closer under price ladders.
ghost use Rattle.std.specs.Prelude.{◌≡◌, ◌↔◌, true, false, IsTrue, length, IfOk};
ghost use Rattle.offer_model.specs.Problems.{ProblemData, product_count};
ghost use Rattle.offer_model.specs.Nodes.{Clashes};
ghost use Rattle.offer_model.specs.LeafBounds.{is_limited};
ghost use Rattle.offer_model.specs.declared.products.Limit.TheVariants as L;
ghost use Rattle.limit_rules.specs.Kinds.{kind_of};
ghost use Rattle.limit_rules.specs.declared.kind.Kind.TheVariants.{Ladder};
ghost use Rattle.linear_step.specs.Weights.{AreWeights, prices_of};
ghost use Rattle.table_steps.specs.LadderFits.{named_ladder, AreLadders, AreLimited, FitsLadders};
ghost use Rattle.table_steps.specs.LadderChoices.{IsSolved};

use crate::ladder_choice::solve;
use crate::ladder_rungs::Rungs;
use linear_step::{Closer, Closing, Step, Steps, Weights};
use offer_model::{Assortment, Limit, NoMemory, Node, Problem, Wide};
use std::alloc::Global;
use std::marker::Brand;
use std::sync::ledger::Ledger;

/// The step of problems under price ladders: beside what is In it offers what weighs more than 0 on no limited ladder, and
/// on each limited ladder a chain of greatest weight, whose grades rise and whose prices don't fall.
#[derive(Drop)]
pub struct LadderStep {
    alloc: Global,
    ladders: Vec<Rungs>,
    limited: Vec<bool>,
    numbers: Vec<u128>,
    chosen: Assortment,
}

/// The ladder that a limit names; 0 of another limit.
fn ladder_of_limit(limit: Limit) -> u32
    ensures { result ≡ named_ladder limit }
{
    match limit {
        Limit::Ladder(ladder) => ladder,
        _ => 0,
    }
}

/// The products of each ladder that has a limit, in file order.
fn all_ladders(alloc: Global, p: &Problem) -> Result<Vec<Rungs>, NoMemory>
    requires { kind_of p.now.limits ≡ Ladder }
    ensures { IfOk result (λ ladders. AreLadders p.now ladders.items) }
{
    let mut ladders = Vec::new(alloc);
    for k in 0..p.limits().len() {
        ladders.push(Rungs::of(alloc, p, ladder_of_limit(*p.limits().get(k)))?)?;
    }
    Ok(ladders)
}

/// Whether the limit is this ladder's.
fn is_ladder(limit: Limit, ladder: u32) -> bool
    ensures { IsTrue result ↔ limit ≡ L.Ladder ladder }
{
    match limit {
        Limit::Ladder(number) => number == ladder,
        _ => false,
    }
}

/// Whether the ladder has a limit.
fn is_limited(p: &Problem, ladder: u32) -> bool
    ensures { result ≡ is_limited p.now.limits ladder }
{
    for k in 0..p.limits().len() {
        if is_ladder(*p.limits().get(k), ladder) {
            return true;
        }
    }
    false
}

/// For each product, whether its ladder has a limit.
fn all_limited(alloc: Global, p: &Problem) -> Result<Vec<bool>, NoMemory>
    ensures { IfOk result (λ limited. AreLimited p.now limited.items) }
{
    let mut limited = vec![in alloc; false; p.products().len()]?;
    for i in 0..p.products().len() {
        limited[i] = is_limited(p, p.products().get(i).ladder);
    }
    Ok(limited)
}

/// The same numbers as a list of their own.
fn listed(alloc: Global, numbers: &[u128]) -> Result<Wide, NoMemory>
    ensures { IfOk result (λ us. us.items ≡ numbers.now) }
{
    let mut us = Wide::new(alloc);
    us.reserve(numbers.len())?;
    for number in numbers {
        us.push(*number);
    }
    Ok(us)
}

impl LadderStep {
    /// A step that fits the problem, whatever the ledger. It takes all memory but that of its answers.
    pub fn prepare(alloc: Global, p: &Problem) -> Result<LadderStep, NoMemory>
        requires kind { kind_of p.now.limits ≡ Ladder }
        ensures step { IfOk result (λ s. ⟦<LadderStep as Step<Brand>>⟧.fits s p.now) }
        ensures closer { IfOk result (λ s. ⟦<LadderStep as Closer>⟧.fits s p.now) }
    {
        let count = p.products().len();
        Ok(LadderStep {
            alloc,
            ladders: all_ladders(alloc, p)?,
            limited: all_limited(alloc, p)?,
            numbers: vec![in alloc; 0; count]?,
            chosen: Assortment::empty(alloc, count)?,
        })
    }

    /// Finds the potentials and a feasible completion that is worth their bound. False where the node clashes.
    fn solve(&mut self, p: &Problem, weights: &Weights, node: &Node) -> bool
        requires fits { FitsLadders p.now self.old.ladders.items self.old.limited.items (length self.old.numbers.items) (length self.old.chosen) }
        requires weights { AreWeights p.now weights.now }
        requires node { length node.now ≡ product_count p.now }
        ensures fits { (q : ProblemData)
            → FitsLadders q self.old.ladders.items self.old.limited.items (length self.old.numbers.items) (length self.old.chosen)
            ↔ FitsLadders q self.new.ladders.items self.new.limited.items (length self.new.numbers.items) (length self.new.chosen) }
        ensures solved { result ≡ true
            → IsSolved p.now node.now (prices_of weights.now) self.new.numbers.items self.new.chosen }
        ensures clash { result ≡ false → Clashes p.now node.now }
    {
        solve(
            p,
            weights,
            node,
            &self.ladders,
            &self.limited,
            &mut self.numbers,
            &mut self.chosen,
        )
    }
}

impl<L: Ledger> Step<L> for LadderStep {
    ghost fits = { λ s p. FitsLadders p s.ladders.items s.limited.items (length s.numbers.items) (length s.chosen) };

    fn best(
        &mut self,
        p: &Problem,
        weights: &Weights,
        node: &Node,
        steps: &mut Steps<L>,
    ) -> Result<Option<Assortment>, NoMemory> {
        steps.tick();
        if !self.solve(p, weights, node) {
            return Ok(None);
        }
        Ok(Some(self.chosen.copy(self.alloc)?))
    }
}

impl Closer for LadderStep {
    ghost fits = { λ s p. FitsLadders p s.ladders.items s.limited.items (length s.numbers.items) (length s.chosen) };

    fn close(&mut self, p: &Problem, weights: &Weights, node: &Node) -> Result<Closing, NoMemory> {
        if !self.solve(p, weights, node) {
            return Ok(Closing::Clash);
        }
        Ok(Closing::Potentials(listed(self.alloc, &self.numbers)?))
    }
}

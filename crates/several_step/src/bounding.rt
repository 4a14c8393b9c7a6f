//! What bounds the nodes of a step's search: rungs of ladders, a list of prices, and a first completion.
ghost use Rattle.std.specs.Option.{option_copied};
ghost use Rattle.std.specs.Prelude.{Some, None, cond, ◌≡◌, length, IfOk, IsTrue};
ghost use Rattle.offer_model.specs.Problems.{product_count};
ghost use Rattle.offer_model.specs.Validity.{IsProblem};
ghost use Rattle.linear_weights.specs.Weights.{AreWeights, prices_of};
ghost use Rattle.several_step.specs.SearchFits.{FitsBounding, IsAsBefore};
ghost use Rattle.several_step.specs.Firsts.{IsFirst};
ghost use Rattle.several_step.specs.ChainFits.{IsList};
ghost use Rattle.several_step.specs.WeightGoals.{AreBounds};

use crate::chains::{bound_by_chains, take_greatest};
use crate::descent::Descent;
use crate::first::First;
use crate::pace::Pace;
use crate::rounding::Rounding;
use crate::rungs::{Rung, collect_rungs};
use linear_weights::Weights;
use offer_model::{Assortment, Mark, NoMemory, Node, Problem};
use std::alloc::Global;
use std::marker::Model;

/// How many steps multipliers take at most for new weights.
const TRIAL_ROUNDS: usize = 300;

/// And where products are settled: the weights are then those of the call before.
const SETTLED_ROUNDS: usize = 60;

/// How many steps lie between two roundings.
const BETWEEN: usize = 10;

/// What bounds: rungs of ladders, which products they are, multipliers with their prices, and the first completion.
#[derive(Drop)]
pub struct Bounding {
    rungs: Vec<Rung>,
    limited: Vec<bool>,
    descent: Descent,
    list: Weights,
    ends: Vec<i128>,
    rounding: Rounding,
    taken: Assortment,
    first: First,
}

impl Model for Bounding {
    ghost use Rattle.std.specs.Prelude.{length};
    ghost use Rattle.several_step.specs.SearchFits.{BoundingData};

    ghost Value = { BoundingData };

    ghost view = { λ b. record { rungs = b.rungs.items; limited = b.limited.items; multipliers = b.descent; list = b.list; ends = length b.ends.items; rounding = b.rounding; taken = length b.taken; first = b.first } };
}

impl Bounding {
    /// What bounds the problem's nodes. It takes all memory that is needed.
    pub fn prepare(alloc: Global, p: &Problem) -> Result<Bounding, NoMemory>
        ensures { IfOk result (FitsBounding p.now) }
    {
        let count = p.products().len();
        let mut limited = Vec::with_capacity(alloc, count)?;
        let rungs = collect_rungs(alloc, p, &mut limited)?;
        Ok(Bounding {
            rungs,
            limited,
            descent: Descent::new(alloc, p)?,
            list: Weights::new(alloc, count)?,
            ends: vec![in alloc; 0i128; count]?,
            rounding: Rounding::new(alloc, p)?,
            taken: Assortment::empty(alloc, count)?,
            first: First::new(alloc, count)?,
        })
    }

    /// The bound of the node at the list, and what it was taken from.
    fn bound(&mut self, p: &Problem, node: &Node) -> i128
        requires fits { FitsBounding p.now self.old }
        requires node { length node.now ≡ product_count p.now }
        requires list { IsList p.now self.old.list }
        ensures same { IsAsBefore self.old self.new }
        ensures list { IsList p.now self.new.list }
        ensures first { self.new.first ≡ self.old.first }
    {
        let bound = bound_by_chains(
            p,
            node,
            &self.list,
            &self.rungs,
            &self.limited,
            &mut self.ends,
        );
        take_greatest(
            node,
            &self.list,
            &self.rungs,
            &self.limited,
            &self.ends,
            &mut self.taken,
        );
        bound
    }

    /// Meets what the list and what was taken are rounded to.
    fn round(&mut self, p: &Problem, weights: &Weights, node: &Node)
        requires fits { FitsBounding p.now self.old }
        requires node { length node.now ≡ product_count p.now }
        requires weights { AreWeights p.now weights.now }
        requires first { IsFirst p.now node.now self.old.first }
        ensures same { IsAsBefore self.old self.new }
        ensures first { IsFirst p.now node.now self.new.first }
    {
        self.rounding.round(
            p,
            node,
            weights,
            &self.list,
            &self.taken,
            &self.rungs,
            &self.limited,
        );
        self.first.meet(p, weights, node, self.rounding.offered());
    }

    /// What multipliers aim at: completions that are worth no more, or don't reach the floor, need not be found.
    fn target(&self, floor: i128) -> Option<i128> {
        match (self.first.weight(), floor.checked_sub(1)) {
            (Some(weight), Some(below)) => Some(weight.max(below)),
            (weight, below) => weight.or(below),
        }
    }

    /// Moves the multipliers that are tried after they gave this bound. False where they are to stay.
    fn move_on(
        &mut self,
        p: &Problem,
        bound: i128,
        target: Option<i128>,
        none: i128,
        pace: &mut Pace,
    ) -> bool
        requires fits { FitsBounding p.now self.old }
        ensures same { IsAsBefore self.old self.new }
        ensures first { self.new.first ≡ self.old.first }
    {
        if pace.see(bound, target) {
            self.descent.keep();
        }
        if pace.is_reached(target) {
            return false;
        }
        if pace.is_stalled() {
            self.descent.go_back();
            return pace.slow();
        }
        self.descent.follow(p, &self.taken, Pace::gap(bound, target, none), pace.pace())
            || pace.halve()
    }

    /// Chooses multipliers for the weights and the node's completions, and meets completions on the way.
    fn descend(&mut self, p: &Problem, weights: &Weights, node: &Node, floor: i128)
        requires fits { FitsBounding p.now self.old }
        requires node { length node.now ≡ product_count p.now }
        requires weights { AreWeights p.now weights.now }
        requires first { IsFirst p.now node.now self.old.first }
        ensures same { IsAsBefore self.old self.new }
        ensures first { IsFirst p.now node.now self.new.first }
    {
        let mut pace = Pace::start();
        for round in 0..rounds(node) {
            self.descent.relax_tried(p, weights, &mut self.list);
            let bound = self.bound(p, node);
            if round % BETWEEN == 0 && bound >= floor {
                self.round(p, weights, node);
            }
            let target = self.target(floor);
            if !self.move_on(p, bound, target, weights.constant(), &mut pace) {
                break;
            }
        }
    }

    /// Makes the list bound what the completions of the node weigh. Multipliers move no further than it takes to tell that none
    /// reaches the floor.
    pub fn relax(&mut self, p: &Problem, weights: &Weights, node: &Node, floor: i128)
        requires fits { FitsBounding p.now self.old }
        requires node { length node.now ≡ product_count p.now }
        requires weights { AreWeights p.now weights.now }
        ensures same { IsAsBefore self.old self.new }
        ensures first { IsFirst p.now node.now self.new.first }
        ensures bounds { AreBounds p.now weights.now self.new.list self.new.rungs self.new.limited }
    {
        self.first.start(p, weights, node);
        self.descent.go_back();
        self.descend(p, weights, node, floor);
        self.descent.relax(p, weights, &mut self.list);
    }

    /// The prices that bound.
    pub fn list(&self) -> &Weights
        ensures { result.now ≡ self.now.list }
    {
        &self.list
    }

    /// A first completion of the node that was asked about last, where one was met.
    pub fn first(&self) -> Option<&Assortment>
        ensures { option_copied result ≡ cond self.now.first.known (Some self.now.first.offered) None }
    {
        self.first.known()
    }

    /// The products on limited ladders.
    pub fn rungs(&self) -> &[Rung]
        ensures { result.now ≡ self.now.rungs }
    {
        &self.rungs
    }

    /// Whether each product is one of them.
    pub fn limited(&self) -> &[bool]
        ensures { result.now ≡ self.now.limited }
    {
        &self.limited
    }
}

/// How many steps multipliers take at most.
fn rounds(node: &Node) -> usize {
    for i in 0..node.len() {
        if node.mark(i) != Mark::Open {
            return SETTLED_ROUNDS;
        }
    }
    TRIAL_ROUNDS
}

//! The leaves of a tree, by the bounds of their kinds.
ghost use Rattle.std.specs.Prelude.{◌≡◌, ◌↔◌, [], length, IfOk, IsTrue};
ghost use Rattle.offer_model.specs.Problems.{product_count};
ghost use Rattle.offer_model.specs.Validity.{IsProblem, IsRatioModel};
ghost use Rattle.proof_lines.specs.Lines.{AreNumbers, IsLine};
ghost use Rattle.proof_lines.specs.Closing.{BoundCloses, Closes};
ghost use Rattle.linear_step.specs.Weights.{prices_of, AreWeights};
ghost use Rattle.proof_check.specs.Leaves.{HasRoom, ClosesBy};
ghost use Rattle.proof_check.specs.Judging.{AreOwnWeights};

use leaf_bounds::{KeptTable, Potentials, ShelfRow, settled_first};
use limit_rules::{clashes, comes_after};
use linear_step::Weights;
use multiplier_bound::Multipliers;
use offer_model::{Assortment, NoMemory, Node, Problem, Wide};
use proof_lines::Shape;
use std::alloc::Global;

/// The room that leaves of a problem are judged in.
#[derive(Drop)]
pub(crate) struct Leaves {
    multipliers: Multipliers,
    potentials: Potentials,
    kept: KeptTable,
    shelf: ShelfRow,
}

/// Whether a bound closes the node.
fn bound_closes(bound: Option<i128>, node: &Node, x: &Assortment) -> bool
    requires { length x.now ≡ length node.now }
    ensures { IsTrue result ↔ BoundCloses x.now node.now bound }
{
    match bound {
        Some(0) => comes_after(node, x),
        Some(worth) => worth < 0,
        None => false,
    }
}

impl Leaves {
    /// Room for leaves of the problem.
    pub(crate) fn new(alloc: Global, p: &Problem) -> Result<Leaves, NoMemory>
        ensures { IfOk result (λ leaves. HasRoom p.now leaves) }
    {
        Ok(Leaves {
            multipliers: Multipliers::new(alloc, p)?,
            potentials: Potentials::new(alloc, p)?,
            kept: KeptTable::new(alloc, p)?,
            shelf: ShelfRow::new(alloc, p)?,
        })
    }

    /// The bound of multipliers, where they may be the multipliers.
    fn by_multipliers(
        &mut self,
        p: &Problem,
        weights: &Weights,
        node: &Node,
        numbers: &Wide,
    ) -> Option<i128>
        requires valid { IsProblem p.now }
        requires room { HasRoom p.now self.old }
        requires weights { AreWeights p.now weights.now }
        requires node { length node.now ≡ product_count p.now }
        requires numbers { AreNumbers numbers.now.items }
        ensures closes { ClosesBy p.now (prices_of weights.now) node.now Shape.Multipliers numbers.now.items result }
        ensures room { HasRoom p.now self.new }
    {
        if !self.multipliers.fit(p, numbers) {
            return None;
        }
        Some(self.multipliers.bound(p, weights, node, numbers))
    }

    /// The bound of the shelf's table, where the node doesn't clash: by the kept table where the settled products come
    /// first, else by a row of its own.
    fn by_shelf(&mut self, p: &Problem, weights: &Weights, node: &Node) -> Option<i128>
        requires room { HasRoom p.now self.old }
        requires weights { AreWeights p.now weights.now }
        requires node { length node.now ≡ product_count p.now }
        ensures closes { ClosesBy p.now (prices_of weights.now) node.now Shape.Shelf [] result }
        ensures room { HasRoom p.now self.new }
    {
        if clashes(p, node) {
            return None;
        }
        match settled_first(node) {
            Some(k) => self.kept.bound(p, weights, node, k),
            None => self.shelf.bound(p, weights, node),
        }
    }

    /// The bound of potentials, where they may be the potentials at the node and it doesn't clash.
    fn by_potentials(
        &mut self,
        p: &Problem,
        weights: &Weights,
        node: &Node,
        numbers: &Wide,
    ) -> Option<i128>
        requires room { HasRoom p.now self.old }
        requires weights { AreWeights p.now weights.now }
        requires node { length node.now ≡ product_count p.now }
        requires numbers { AreNumbers numbers.now.items }
        ensures closes { ClosesBy p.now (prices_of weights.now) node.now Shape.Potentials numbers.now.items result }
        ensures room { HasRoom p.now self.new }
    {
        if clashes(p, node) || !self.potentials.fit(p, weights, node, numbers) {
            return None;
        }
        Some(self.potentials.bound(p, weights, node, numbers))
    }

    /// The bound of a leaf of this shape and these numbers at the node, where it has one.
    fn bound(
        &mut self,
        p: &Problem,
        weights: &Weights,
        node: &Node,
        shape: Shape,
        numbers: &Wide,
    ) -> Option<i128>
        requires valid { IsProblem p.now }
        requires room { HasRoom p.now self.old }
        requires weights { AreWeights p.now weights.now }
        requires node { length node.now ≡ product_count p.now }
        requires line { IsLine shape numbers.now.items }
        ensures closes { ClosesBy p.now (prices_of weights.now) node.now shape numbers.now.items result }
        ensures room { HasRoom p.now self.new }
    {
        match shape {
            Shape::Multipliers => self.by_multipliers(p, weights, node, numbers),
            Shape::Shelf => self.by_shelf(p, weights, node),
            Shape::Potentials => self.by_potentials(p, weights, node, numbers),
            _ => None,
        }
    }

    /// Whether a leaf of this shape and these numbers closes the node.
    pub(crate) fn close(
        &mut self,
        p: &Problem,
        x: &Assortment,
        weights: &Weights,
        node: &Node,
        shape: Shape,
        numbers: &Wide,
    ) -> bool
        requires model { IsRatioModel p.now.model }
        requires valid { IsProblem p.now }
        requires room { HasRoom p.now self.old }
        requires set { length x.now ≡ product_count p.now }
        requires weights { AreOwnWeights p.now x.now weights.now }
        requires node { length node.now ≡ product_count p.now }
        requires line { IsLine shape numbers.now.items }
        ensures closes { IsTrue result ↔ Closes p.now x.now node.now shape numbers.now.items }
        ensures room { HasRoom p.now self.new }
    {
        if shape == Shape::Clash {
            return clashes(p, node);
        }
        bound_closes(self.bound(p, weights, node, shape, numbers), node, x)
    }
}

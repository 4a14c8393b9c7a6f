//! Both phases: a closed set of greatest weight, and the multipliers that prove it greatest.
ghost use Rattle.std.specs.Prelude.{◌≡◌, Bool, length, IfOk, MatchOption};
ghost use Rattle.offer_model.specs.Assortments.{offers};
ghost use Rattle.cut_step.specs.Closures.{HasNoClosure, IsGreatestClosure};
ghost use Rattle.cut_step.specs.Adjacencies.{IsAdjacency};
ghost use Rattle.cut_step.specs.Sizes.{FitTogether};
ghost use Rattle.cut_step.specs.Phases.{AreSmall, IsDone};

use crate::adjacency::Adjacency;
use crate::flow::Flow;
use crate::forced::cover_required;
use crate::funded::augment_all;
use crate::reach::Reach;
use crate::rows::Row;
use linear_step::Weights;
use offer_model::{Assortment, NoMemory, Node, Wide};
use std::alloc::Global;

/// Both phases. Says whether a closed set agrees with the node: then what was reached is one of greatest total.
fn solve(
    rows: &[Row],
    adjacency: &Adjacency,
    weights: &Weights,
    node: &Node,
    flow: &mut Flow,
    reach: &mut Reach,
) -> bool
    requires adjacency { IsAdjacency rows.now (length node.now) adjacency.now }
    requires small { AreSmall weights.now.items }
    requires weights { length weights.now.items ≡ length node.now }
    requires lists { FitTogether rows.now node.now flow.old reach.old }
    ensures done { IsDone rows.now node.now weights.now.items flow.new.excess.items flow.new.amounts.items
        reach.new.spots.items result }
    ensures lists { FitTogether rows.now node.now flow.new reach.new }
{
    flow.start(weights);
    reach.start();
    if !cover_required(rows, adjacency, node, flow, reach) {
        return false;
    }
    augment_all(rows, adjacency, node, flow, reach);
    true
}

/// A closed set of greatest total that agrees with the node, as an assortment.
pub fn greatest(
    alloc: Global,
    rows: &[Row],
    adjacency: &Adjacency,
    weights: &Weights,
    node: &Node,
    flow: &mut Flow,
    reach: &mut Reach,
) -> Result<Option<Assortment>, NoMemory>
    requires adjacency { IsAdjacency rows.now (length node.now) adjacency.now }
    requires small { AreSmall weights.now.items }
    requires weights { length weights.now.items ≡ length node.now }
    requires lists { FitTogether rows.now node.now flow.old reach.old }
    ensures answer { IfOk result (λ found. MatchOption found (HasNoClosure rows.now node.now)
        (λ x. (length x ≡ length node.now) × IsGreatestClosure rows.now node.now weights.now.items (offers x))) }
    ensures lists { FitTogether rows.now node.now flow.new reach.new }
{
    if !solve(rows, adjacency, weights, node, flow, reach) {
        return Ok(None);
    }
    let x = reach.assortment(alloc)?;
    Ok(Some(x))
}

/// The amounts as a list.
fn numbers_of(alloc: Global, amounts: &[u128]) -> Result<Wide, NoMemory>
    ensures { IfOk result (λ numbers. numbers.items ≡ amounts.now) }
{
    let mut numbers = Wide::new(alloc);
    numbers.reserve(amounts.len())?;
    for amount in amounts {
        numbers.push(*amount);
    }
    Ok(numbers)
}

/// Multipliers of the rows, whose bound is the greatest total, or below 0 where no closed set agrees with the node.
pub fn multipliers(
    alloc: Global,
    rows: &[Row],
    adjacency: &Adjacency,
    weights: &Weights,
    node: &Node,
    flow: &mut Flow,
    reach: &mut Reach,
) -> Result<Wide, NoMemory>
    requires adjacency { IsAdjacency rows.now (length node.now) adjacency.now }
    requires small { AreSmall weights.now.items }
    requires weights { length weights.now.items ≡ length node.now }
    requires lists { FitTogether rows.now node.now flow.old reach.old }
    ensures answer { IfOk result (λ numbers. (possible : Bool)
        × IsDone rows.now node.now weights.now.items flow.new.excess.items numbers.items reach.new.spots.items possible) }
    ensures lists { FitTogether rows.now node.now flow.new reach.new }
{
    let _possible = solve(rows, adjacency, weights, node, flow, reach);
    numbers_of(alloc, &flow.amounts)
}

//! The leaves beside the path along an assortment.
ghost use Rattle.std.specs.Prelude.{◌≡◌, ◌<◌, ◌≤◌, ◌↔◌, length, IfOk};
ghost use Rattle.offer_model.specs.Problems.{ProblemData, product_count};
ghost use Rattle.offer_model.specs.Ranges.{gain_bound, weight_bound};
ghost use Rattle.offer_model.specs.Validity.{IsRatioModel};
ghost use Rattle.offer_model.specs.Prices.{prices_at};
ghost use Rattle.linear_step.specs.Weights.{prices_of, AreWeights, AreAt};
ghost use Rattle.proof_lines.specs.Closing.{own_prices};
ghost use Rattle.proof_lines.specs.Writing.{offered_end};
ghost use Rattle.proof_tree.specs.Pens.{line_data, lines_data};
ghost use Rattle.proof_write.specs.Leaves.{mark_of, leaf_line, AreLeaves};

use crate::header::bare;
use linear_step::{Closer, Closing, Weights, weights_at};
use offer_model::{Assortment, Fraction, Mark, NoMemory, Node, Problem};
use proof_lines::{Line, Shape};
use std::alloc::Global;

/// The number of products up to the last that is offered.
pub(crate) fn end_of_offered(x: &Assortment) -> usize
    ensures value { result ≡ offered_end x.now }
    ensures inside { result ≤ length x.now }
{
    let mut end = x.len();
    'products: while end > 0 {
        if x.offers(end - 1) {
            return end;
        }
        end -= 1;
    }
    0
}

/// The mark of a product that is offered, or isn't.
pub(crate) fn mark_of(offered: bool) -> Mark
    ensures { result ≡ mark_of offered }
{
    if offered { Mark::In } else { Mark::Out }
}

/// The weights at what is earned.
pub(crate) fn weights_of(alloc: Global, p: &Problem, earned: &Fraction) -> Result<Weights, NoMemory>
    requires model { IsRatioModel p.now.model }
    requires num { earned.now.num < gain_bound }
    requires den { (1 ≤ earned.now.den) × (earned.now.den < weight_bound) }
    ensures weights { IfOk result (AreWeights p.now) }
    ensures at { IfOk result (AreAt p.now earned.now.num earned.now.den) }
{
    let mut weights = Weights::reserve(alloc, p.products().len())?;
    weights_at(p, earned.num, earned.den, &mut weights);
    Ok(weights)
}

/// The line that says what closes a node.
fn line_of(alloc: Global, closing: Closing) -> Line
    ensures { line_data result ≡ leaf_line closing }
{
    match closing {
        Closing::Clash => bare(alloc, Shape::Clash),
        Closing::Multipliers(numbers) => Line {
            shape: Shape::Multipliers,
            numbers,
        },
        Closing::Shelf => bare(alloc, Shape::Shelf),
        Closing::Potentials(numbers) => Line {
            shape: Shape::Potentials,
            numbers,
        },
    }
}

/// Closes the nodes beside the path along the assortment, up to the last that is offered, and then the path's own node.
fn leaves_at<C: Closer>(
    alloc: Global,
    p: &Problem,
    x: &Assortment,
    weights: &Weights,
    step: &mut C,
) -> Result<Vec<Line>, NoMemory>
    requires fits { C.fits step.old p.now }
    requires weights { AreWeights p.now weights.now }
    requires length { length x.now ≡ product_count p.now }
    ensures fits { (q : ProblemData) → C.fits step.old q ↔ C.fits step.new q }
    ensures leaves { IfOk result (λ leaves. AreLeaves p.now (prices_of weights.now) x.now (offered_end x.now) (lines_data leaves.items)) }
{
    let end = end_of_offered(x);
    let mut node = Node::open(alloc, p.products().len())?;
    let mut leaves = Vec::new(alloc);
    leaves.reserve(end + 1)?;
    for k in 0..end {
        node.set(k, mark_of(!x.offers(k)));
        leaves.push_reserved(line_of(alloc, step.close(p, weights, &node)?));
        node.set(k, mark_of(x.offers(k)));
    }
    leaves.push_reserved(line_of(alloc, step.close(p, weights, &node)?));
    Ok(leaves)
}

/// Closes these nodes at the revenue that the assortment earns.
pub(crate) fn leaves_of<C: Closer>(
    alloc: Global,
    p: &Problem,
    x: &Assortment,
    earned: &Fraction,
    step: &mut C,
) -> Result<Vec<Line>, NoMemory>
    requires model { IsRatioModel p.now.model }
    requires fits { C.fits step.old p.now }
    requires length { length x.now ≡ product_count p.now }
    requires num { earned.now.num < gain_bound }
    requires den { (1 ≤ earned.now.den) × (earned.now.den < weight_bound) }
    requires prices { own_prices p.now x.now ≡ prices_at p.now earned.now.num earned.now.den }
    ensures fits { (q : ProblemData) → C.fits step.old q ↔ C.fits step.new q }
    ensures leaves { IfOk result (λ leaves. AreLeaves p.now (own_prices p.now x.now) x.now (offered_end x.now) (lines_data leaves.items)) }
{
    let weights = weights_of(alloc, p, earned)?;
    leaves_at(alloc, p, x, &weights, step)
}

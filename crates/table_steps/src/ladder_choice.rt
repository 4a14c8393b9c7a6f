//! What is offered at a node: what stands beside ladders, and of each ladder a greatest chain.
ghost use Rattle.std.specs.Prelude.{◌≡◌, ◌↔◌, ℕ, ◌<◌, ◌≤◌, true, false, IsTrue, length, pos, ◌-ℤ◌, ◌≤ℤ◌, slice_index};
ghost use Rattle.offer_model.specs.Assortments.{offers};
ghost use Rattle.offer_model.specs.Problems.{product_count, product_at};
ghost use Rattle.offer_model.specs.LeafBounds.{ladder_of};
ghost use Rattle.offer_model.specs.Nodes.{Clashes};
ghost use Rattle.linear_step.specs.Closings.{number_bound};
ghost use Rattle.linear_step.specs.Weights.{AreWeights, weight_at, prices_of};
ghost use Rattle.table_steps.specs.LadderRungs.{AreRungs};
ghost use Rattle.table_steps.specs.LadderFits.{AreLadders, AreLimited};
ghost use Rattle.table_steps.specs.LadderPotentials.{Follows, AreSums, ArePotentials};
ghost use Rattle.table_steps.specs.LadderChoices.{takes, TakesBeside, HasClimbed, IsChosen, IsSolved};

use crate::ladder_potentials::{follows, greatest_after, raise_all};
use crate::ladder_rungs::Rungs;
use limit_rules::clashes;
use linear_step::Weights;
use offer_model::{Assortment, Mark, Node, Problem, Product};

fn takes(mark: Mark, is_limited: bool, weight: i128) -> bool
    ensures { result ≡ takes mark is_limited weight }
{
    match mark {
        Mark::In => true,
        Mark::Out => false,
        Mark::Open => !is_limited && weight > 0,
    }
}

/// Offers what is In, and what is Open on no limited ladder with a weight above 0.
fn take_beside(p: &Problem, weights: &Weights, node: &Node, limited: &[bool], x: &mut Assortment)
    requires weights { AreWeights p.now weights.now }
    requires node { length node.now ≡ product_count p.now }
    requires limited { AreLimited p.now limited.now }
    requires assortment { length x.old ≡ product_count p.now }
    ensures { TakesBeside p.now node.now (weight_at weights.now) x.new }
{
    for i in 0..node.len() {
        x.set(i, takes(node.mark(i), limited[i], weights.get(i)));
    }
}

/// Whether a chain that wants so much goes on with product `i`.
fn is_next(p: &Problem, numbers: &[u128], want: u128, last: Option<Product>, i: usize) -> bool
    requires product { i < product_count p.now }
    requires numbers { length numbers.now ≡ product_count p.now }
    ensures { IsTrue result
        ↔ (0 < want) × (slice_index numbers.now i ≡ want) × Follows last (product_at p.now i) }
{
    want > 0 && numbers[i] == want && follows(last, *p.products().get(i))
}

/// What is wanted beside a product of this weight.
fn less(want: u128, weight: i128) -> u128
    requires small { want ≤ number_bound }
    requires enough { weight ≤ℤ pos want }
    requires least { (pos want -ℤ weight) ≤ℤ pos number_bound }
    ensures { pos result ≡ pos want -ℤ weight }
{
    (want as i128 - weight) as u128
}

/// Offers a greatest chain of the ladder, from the lowest grade up.
fn climb(p: &Problem, weights: &Weights, numbers: &[u128], rungs: &Rungs, x: &mut Assortment)
    requires weights { AreWeights p.now weights.now }
    requires sums { AreSums p.now (weight_at weights.now) numbers.now }
    requires rungs { AreRungs p.now rungs.now }
    requires assortment { length x.old ≡ product_count p.now }
    requires free { (i : ℕ) → i < product_count p.now → ladder_of p.now i ≡ rungs.now.ladder
        → 0 < slice_index numbers.now i → offers x.old i ≡ false }
    ensures { HasClimbed p.now (prices_of weights.now) numbers.now rungs.now.ladder x.old x.new }
{
    let list = rungs.products();
    let mut want = greatest_after(p, numbers, list, None, 0);
    let mut last = None;
    for k in 0..list.len() {
        let i = list[k];
        if !is_next(p, numbers, want, last, i) {
            continue;
        }
        x.set(i, true);
        want = less(want, weights.get(i));
        last = Some(*p.products().get(i));
    }
}

/// Offers what is best beside the ladders, and a greatest chain on each.
fn choose(
    p: &Problem,
    weights: &Weights,
    node: &Node,
    ladders: &[Rungs],
    limited: &[bool],
    numbers: &[u128],
    x: &mut Assortment,
)
    requires weights { AreWeights p.now weights.now }
    requires node { length node.now ≡ product_count p.now }
    requires ladders { AreLadders p.now ladders.now }
    requires limited { AreLimited p.now limited.now }
    requires potentials { ArePotentials p.now node.now (weight_at weights.now) numbers.now }
    requires assortment { length x.old ≡ product_count p.now }
    ensures { IsChosen p.now node.now (prices_of weights.now) ladders.now numbers.now (length p.now.limits) x.new }
{
    take_beside(p, weights, node, limited, x);
    for k in 0..ladders.len() {
        climb(p, weights, numbers, &ladders[k], x);
    }
}

/// The potentials, and a feasible completion that is worth their bound. False where the node clashes.
pub fn solve(
    p: &Problem,
    weights: &Weights,
    node: &Node,
    ladders: &[Rungs],
    limited: &[bool],
    numbers: &mut [u128],
    x: &mut Assortment,
) -> bool
    requires weights { AreWeights p.now weights.now }
    requires node { length node.now ≡ product_count p.now }
    requires ladders { AreLadders p.now ladders.now }
    requires limited { AreLimited p.now limited.now }
    requires numbers { length numbers.old ≡ product_count p.now }
    requires assortment { length x.old ≡ product_count p.now }
    ensures solved { result ≡ true → IsSolved p.now node.now (prices_of weights.now) numbers.new x.new }
    ensures clash { result ≡ false → Clashes p.now node.now }
    ensures numbers { length numbers.new ≡ length numbers.old }
    ensures assortment { length x.new ≡ length x.old }
{
    if clashes(p, node) {
        return false;
    }
    raise_all(p, weights, node, ladders, numbers);
    choose(p, weights, node, ladders, limited, numbers, x);
    true
}

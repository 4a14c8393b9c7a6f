//! Sums of weights: of an assortment, and of what completes a node.
ghost use Rattle.std.specs.Prelude.{◌≡◌, ◌^◌, cond, length, pos, ◌+ℤ◌};
ghost use Rattle.offer_model.specs.Problems.{product_count};
ghost use Rattle.offer_model.specs.Prices.{most_of, worth_of, greatest_worth};
ghost use Rattle.linear_weights.specs.Weights.{IsWithin, AreWeights, SumsFit, prices_of};

use crate::weights::Weights;
use offer_model::{Assortment, Mark, Node, Problem};

/// The sum of two numbers, where it is within its bound.
pub fn plus(a: i128, b: i128) -> i128
    requires { IsWithin (2 ^ 126) (a +ℤ b) }
    ensures { result ≡ a +ℤ b }
{
    a + b
}

/// What a product with this mark adds at most.
pub fn most_of(mark: Mark, price: i128) -> i128
    ensures { result ≡ most_of mark price }
{
    match mark {
        Mark::In => price,
        Mark::Out => 0,
        Mark::Open => if price > 0 { price } else { 0 },
    }
}

/// What a product adds to an assortment's weight.
fn added(offered: bool, weight: i128) -> i128
    ensures { result ≡ cond offered weight (pos 0) }
{
    if offered { weight } else { 0 }
}

impl Weights {
    /// What an assortment weighs: the constant and the weights of what it offers.
    pub fn worth(&self, p: &Problem, x: &Assortment) -> i128
        requires weights { AreWeights p.now self.now }
        requires long { length x.now ≡ product_count p.now }
        ensures { result ≡ worth_of p.now (prices_of self.now) x.now }
    {
        let mut sum = self.constant();
        for i in 0..p.products().len() {
            sum = plus(sum, added(x.offers(i), self.get(i)));
        }
        sum
    }

    /// The greatest worth of a completion of the node, with limits left aside.
    pub fn greatest(&self, p: &Problem, node: &Node) -> i128
        requires node { length node.now ≡ product_count p.now }
        requires each { length self.now.items ≡ product_count p.now }
        requires sums { SumsFit p.now node.now (prices_of self.now) }
        ensures { result ≡ greatest_worth p.now node.now (prices_of self.now) }
    {
        let mut sum = self.constant();
        for i in 0..p.products().len() {
            sum = plus(sum, most_of(node.mark(i), self.get(i)));
        }
        sum
    }
}

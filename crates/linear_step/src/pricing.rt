//! The weights at a trial revenue.
ghost use Rattle.std.specs.Prelude.{◌≡◌, ℕ, ◌*◌, ◌<◌, ◌≤◌, ◌^◌, pos, ◌-ℤ◌};
ghost use Rattle.offer_model.specs.Assortments.{sum_below};
ghost use Rattle.offer_model.specs.Problems.{product_count, first_segment, margin_of, attraction_of, shadow_of};
ghost use Rattle.offer_model.specs.Ranges.{gain_bound, weight_bound};
ghost use Rattle.offer_model.specs.Validity.{IsRatioModel};
ghost use Rattle.offer_model.specs.Prices.{prices_at};
ghost use Rattle.linear_weights.specs.Weights.{price_bound, constant_bound, IsWithin, AreWeights, AreAt};

use linear_weights::Weights;
use offer_model::{Problem, product_gain};

/// The difference of two numbers, either of which may be the greater.
fn difference(a: u128, b: u128) -> i128
    requires a { a < 2 ^ 107 }
    requires b { b < 2 ^ 107 }
    ensures { result ≡ pos a -ℤ pos b }
{
    a as i128 - b as i128
}

/// The attraction of product `i`.
fn attraction(p: &Problem, i: usize) -> u128
    requires model { IsRatioModel p.now.model }
    requires product { i < product_count p.now }
    ensures value { result ≡ attraction_of (first_segment p.now) i }
    ensures bound { result ≤ 10 ^ 9 }
{
    u128::from(p.segments().get(0).attract(i))
}

/// The shadow attraction of product `i`.
fn shadow(p: &Problem, i: usize) -> u128
    requires model { IsRatioModel p.now.model }
    requires product { i < product_count p.now }
    ensures value { result ≡ shadow_of (first_segment p.now) i }
    ensures bound { result ≤ attraction_of (first_segment p.now) i }
    ensures most { result ≤ 10 ^ 9 }
{
    u128::from(p.segments().get(0).shadow(i))
}

/// The sum of all shadow attractions.
fn shadow_in_all(p: &Problem) -> u128
    requires model { IsRatioModel p.now.model }
    ensures value { result ≡ sum_below (product_count p.now) (shadow_of (first_segment p.now)) }
    ensures bound { result ≤ 256 * 10 ^ 9 }
{
    let mut total = 0u128;
    for i in 0..p.products().len() {
        total += shadow(p, i);
    }
    total
}

/// The price of product `i` at the revenue `num / den`.
fn price(p: &Problem, num: u128, den: u128, i: usize) -> i128
    requires model { IsRatioModel p.now.model }
    requires product { i < product_count p.now }
    requires num { num < gain_bound }
    requires den { den < weight_bound }
    ensures value { result ≡ (prices_at p.now num den).price i }
    ensures small { IsWithin price_bound result }
{
    let segments = p.segments().len();
    prove!(segments == 1);
    difference(
        den * product_gain(p, 0, i) + num * shadow(p, i),
        num * attraction(p, i),
    )
}

/// What each assortment is worth beside its prices at a revenue of this numerator.
fn constant(p: &Problem, num: u128) -> i128
    requires model { IsRatioModel p.now.model }
    requires num { num < gain_bound }
    ensures value { (den : ℕ) → result ≡ (prices_at p.now num den).constant }
    ensures small { IsWithin constant_bound result }
{
    let none = u128::from(p.segments().get(0).none());
    difference(0, num * (none + shadow_in_all(p)))
}

/// The weights at the revenue `num / den`: each product's price, and the constant.
pub fn weights_at(p: &Problem, num: u128, den: u128, out: &mut Weights)
    requires model { IsRatioModel p.now.model }
    requires num { num < gain_bound }
    requires den { (1 ≤ den) × (den < weight_bound) }
    requires room { product_count p.now ≤ out.old.room }

    // One for each product, small, and the prices at the revenue.
    ensures weights { AreWeights p.now out.new }
    ensures at { AreAt p.now num den out.new }
    ensures room { out.old.room ≤ out.new.room }
{
    out.restart(constant(p, num));
    for i in 0..p.products().len() {
        out.push(price(p, num, den, i));
    }
}

//! What an assortment earns, as gain and weight, and which of two earns more.
ghost use Rattle.std.specs.Prelude.{◌≡◌, ℕ, ◌+◌, ◌*◌, ◌<◌, ◌≤◌, ◌^◌, ◌↔◌, length, cond};
ghost use Rattle.std.specs.Ordering.{nat_cmp};
ghost use Rattle.offer_model.specs.Problems.{product_count, segment_at, margin_of, attraction_of, shadow_of};
ghost use Rattle.offer_model.specs.Ranges.{gain_bound, weight_bound, IsInBounds};
ghost use Rattle.offer_model.specs.Validity.{IsProblem, IsRatioModel};
ghost use Rattle.offer_model.specs.Revenue.{gain_of, weight_of, revenue_of, segment_value, value_of, EarnsMore};

use crate::assortment::Assortment;
use crate::problems::Problem;
use crate::products::{Fraction, ModelName};
use std::cmp::Ordering;

/// Margin times attraction of product `i` in segment `g`.
pub fn product_gain(p: &Problem, g: usize, i: usize) -> u128
    requires segment { g < length p.now.segments }
    requires product { i < product_count p.now }
    ensures value { result ≡ margin_of p.now i * attraction_of (segment_at p.now g) i }
    ensures bound { result ≤ 10 ^ 18 }
{
    u128::from(p.products().get(i).margin) * u128::from(p.segments().get(g).attract(i))
}

/// What product `i` adds to the weight of segment `g`.
fn product_weight(p: &Problem, g: usize, i: usize, offered: bool) -> u128
    requires segment { g < length p.now.segments }
    requires product { i < product_count p.now }
    ensures value { result ≡ cond offered (attraction_of (segment_at p.now g) i) (shadow_of (segment_at p.now g) i) }
    ensures bound { result ≤ 10 ^ 9 }
{
    let segment = p.segments().get(g);
    u128::from(if offered {
        segment.attract(i)
    } else {
        segment.shadow(i)
    })
}

/// The sum of margin times attraction over what is offered: revenue times [`weight`].
pub fn gain(p: &Problem, g: usize, x: &Assortment) -> u128
    requires segment { g < length p.now.segments }
    requires length { length x.now ≡ product_count p.now }
    ensures value { result ≡ gain_of p.now (segment_at p.now g) x.now }
    ensures bound { result < gain_bound }
{
    let mut total = 0u128;
    for i in 0..p.products().len() {
        if x.offers(i) {
            total += product_gain(p, g, i);
        }
    }
    total
}

/// The weight of all choices: buying nothing, what is offered, and the shadows of what isn't.
pub fn weight(p: &Problem, g: usize, x: &Assortment) -> u128
    requires segment { g < length p.now.segments }
    requires length { length x.now ≡ product_count p.now }
    ensures value { result ≡ weight_of p.now (segment_at p.now g) x.now }
    ensures bound { result < weight_bound }
    ensures some { 0 < result }
{
    let mut total = u128::from(p.segments().get(g).none());
    for i in 0..p.products().len() {
        total += product_weight(p, g, i, x.offers(i));
    }
    total
}

/// Which of two fractions is greater, by cross products.
pub fn compare_fraction(a: &Fraction, b: &Fraction) -> Ordering
    requires a_num { a.now.num < 2 ^ 70 }
    requires b_num { b.now.num < 2 ^ 70 }
    requires a_den { (1 ≤ a.now.den) × (a.now.den < 2 ^ 40) }
    requires b_den { (1 ≤ b.now.den) × (b.now.den < 2 ^ 40) }
    ensures { result ≡ nat_cmp (a.now.num * b.now.den) (b.now.num * a.now.den) }
{
    (a.num * b.den).cmp(&(b.num * a.den))
}

/// What an assortment earns: its gain over its weight, in the only segment.
pub fn revenue(p: &Problem, x: &Assortment) -> Fraction
    requires model { IsRatioModel p.now.model }
    requires length { length x.now ≡ product_count p.now }
    ensures value { result ≡ revenue_of p.now x.now }
    ensures bounds { IsInBounds result }
    ensures valid { IsProblem p.now }
{
    let segments = p.segments().len();
    prove!(segments == 1);
    Fraction {
        num: gain(p, 0, x),
        den: weight(p, 0, x),
    }
}

/// The size of segment `g`.
fn size(p: &Problem, g: usize) -> u64
    requires segment { g < length p.now.segments }
    ensures value { result ≡ (segment_at p.now g).size }
    ensures valid { IsProblem p.now }
{
    p.segments().get(g).size()
}

/// Size times unit: what a segment's revenue is multiplied by before it is rounded down.
pub fn share(p: &Problem, g: usize) -> u128
    requires segment { g < length p.now.segments }
    ensures value { result ≡ (segment_at p.now g).size * p.now.unit }
    ensures bound { result ≤ 10 ^ 9 }
    ensures valid { IsProblem p.now }
{
    u128::from(size(p, g)) * u128::from(p.unit())
}

/// What an assortment brings in segment `g` under mixed logit: size times unit times its revenue there, rounded down.
pub fn segment_revenue(p: &Problem, g: usize, x: &Assortment) -> u128
    requires segment { g < length p.now.segments }
    requires length { length x.now ≡ product_count p.now }
    ensures value { result ≡ segment_value p.now (segment_at p.now g) x.now }
    ensures bound { result ≤ 10 ^ 18 }
{
    share(p, g) * gain(p, g, x) / weight(p, g, x)
}

/// What an assortment brings in all segments together, rounded down in each.
pub fn mixed_value(p: &Problem, x: &Assortment) -> u128
    requires length { length x.now ≡ product_count p.now }
    ensures value { result ≡ value_of p.now x.now }
    ensures bound { result ≤ 10 ^ 18 }
    ensures valid { IsProblem p.now }
{
    let mut total = 0;
    for g in 0..p.segments().len() {
        total += segment_revenue(p, g, x);
    }
    total
}

/// Whether `x` earns more than `y` (`Greater`), less (`Less`), or as much.
pub fn value_order(p: &Problem, x: &Assortment, y: &Assortment) -> Ordering
    requires x { length x.now ≡ product_count p.now }
    requires y { length y.now ≡ product_count p.now }
    ensures greater { (result ≡ Ordering.Greater) ↔ EarnsMore p.now x.now y.now }
    ensures less { (result ≡ Ordering.Less) ↔ EarnsMore p.now y.now x.now }
{
    match p.model() {
        ModelName::Mixed => mixed_value(p, x).cmp(&mixed_value(p, y)),
        _ => compare_fraction(&revenue(p, x), &revenue(p, y)),
    }
}

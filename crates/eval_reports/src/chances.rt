//! The chances of what a customer does.
ghost use Rattle.std.specs.Prelude.{◌≡◌, ◌+◌, ◌<◌, ◌≤◌, ◌^◌, length, cond};
ghost use Rattle.offer_model.specs.Problems.{product_count, segment_at, shadow_of};
ghost use Rattle.offer_model.specs.Revenue.{sum_left_out, chance_of, leave_of};

use offer_model::{Assortment, Fraction, Problem, weight};

/// The chance that a customer of segment `g` buys product `i`, 0 where it isn't offered; unreduced, over the weight.
pub fn chance(p: &Problem, g: usize, x: &Assortment, i: usize) -> Fraction
    requires segment { g < length p.now.segments }
    requires length { length x.now ≡ product_count p.now }
    requires product { i < product_count p.now }
    ensures { result ≡ chance_of p.now (segment_at p.now g) x.now i }
{
    let bought = if x.offers(i) {
        p.segments().get(g).attract(i)
    } else {
        0
    };
    let all = weight(p, g, x);
    Fraction {
        num: u128::from(bought),
        den: all,
    }
}

/// The shadow attraction of product `i` in segment `g`.
fn shadow(p: &Problem, g: usize, i: usize) -> u128
    requires segment { g < length p.now.segments }
    requires product { i < product_count p.now }
    ensures value { result ≡ shadow_of (segment_at p.now g) i }
    ensures bound { result ≤ 10 ^ 9 }
{
    u128::from(p.segments().get(g).shadow(i))
}

/// Buying nothing, and the shadows of what isn't offered.
fn weight_of_leaving(p: &Problem, g: usize, x: &Assortment) -> u128
    requires segment { g < length p.now.segments }
    requires length { length x.now ≡ product_count p.now }
    ensures { result ≡ (segment_at p.now g).none
        + sum_left_out p.now x.now (shadow_of (segment_at p.now g)) }
{
    let mut total = u128::from(p.segments().get(g).none());
    for i in 0..p.products().len() {
        if !x.offers(i) {
            total += shadow(p, g, i);
        }
    }
    total
}

/// The chance that a customer of segment `g` buys nothing, unreduced, over the weight.
pub fn leave(p: &Problem, g: usize, x: &Assortment) -> Fraction
    requires segment { g < length p.now.segments }
    requires length { length x.now ≡ product_count p.now }
    ensures { result ≡ leave_of p.now (segment_at p.now g) x.now }
{
    Fraction {
        num: weight_of_leaving(p, g, x),
        den: weight(p, g, x),
    }
}

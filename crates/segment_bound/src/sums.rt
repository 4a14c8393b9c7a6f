//! Gain and weight of a segment, product by product.
ghost use Rattle.std.specs.Prelude.{◌≡◌, ◌≤◌, ◌^◌, ◌<◌, ◌*◌, nat_lt, false, length, slice_index};
ghost use Rattle.std.specs.List.{All};
ghost use Rattle.offer_model.specs.Assortments.{sum_below};
ghost use Rattle.segment_bound.specs.Sums.{taken_if, IsMoved};
ghost use Rattle.segment_bound.specs.Kept.{Holds, AllHold, AllMoved};

use crate::order::Ranked;
use offer_model::Segments;

/// What has been summed of a segment: margin times attraction, and the weight of all choices.
#[derive(Clone, Copy)]
pub struct Sums {
    pub gain: u128,
    pub weight: u64,
}

/// The sums with the product where it is taken, else the same.
pub fn taken_if(taken: bool, q: Ranked, attraction: u64, sums: Sums) -> Sums
    requires sums { (sums.gain ≤ 2 ^ 80) × (sums.weight ≤ 2 ^ 60) }
    requires product { (q.margin ≤ 10 ^ 9) × (attraction ≤ 10 ^ 9) }
    ensures { result ≡ taken_if taken q attraction sums }
{
    if taken {
        Sums {
            gain: sums.gain + u128::from(q.margin) * u128::from(attraction),
            weight: sums.weight + attraction,
        }
    } else {
        sums
    }
}

/// Whether the margin is above the ratio of the sums.
pub fn is_below(sums: Sums, margin: u64) -> bool
    ensures { result ≡ nat_lt sums.gain (margin * sums.weight) }
{
    sums.gain < u128::from(margin) * u128::from(sums.weight)
}

/// The sums without the product, where it is among what is summed.
fn without(was: bool, q: Ranked, attraction: u64, sums: Sums) -> Sums
    requires margin { q.margin ≤ 10 ^ 9 }
    requires holds { Holds was q.margin attraction sums }
    ensures moved { IsMoved was false q attraction sums result }
    ensures gain { result.gain ≤ sums.gain }
    ensures weight { result.weight ≤ sums.weight }
{
    if was {
        Sums {
            gain: sums.gain - u128::from(q.margin) * u128::from(attraction),
            weight: sums.weight - attraction,
        }
    } else {
        sums
    }
}

/// The sums after a product, which was among what is summed or wasn't, now is or isn't.
fn moved(was: bool, now_is: bool, q: Ranked, attraction: u64, sums: Sums) -> Sums
    requires margin { q.margin ≤ 10 ^ 9 }
    requires holds { Holds was q.margin attraction sums }
    ensures { IsMoved was now_is q attraction sums result }
{
    let rest = without(was, q, attraction, sums);
    taken_if(now_is, q, attraction, rest)
}

/// The product is moved in each segment's sums.
pub fn move_each(was: bool, now_is: bool, q: Ranked, segments: &Segments, sums: &mut [Sums])
    requires margin { q.margin ≤ 10 ^ 9 }
    requires inside { All (λ g. q.product < length g.attract) segments.now.items }
    requires each { length sums.old ≡ length segments.now.items }
    requires holds { AllHold segments.now.items was q sums.old }
    ensures each { length sums.new ≡ length sums.old }
    ensures moved { AllMoved segments.now.items was now_is q sums.old sums.new }
{
    for k in 0..sums.len() {
        let attraction = segments.get(k).attract(q.product);
        sums[k] = moved(was, now_is, q, attraction, sums[k]);
    }
}

/// The sum of some numbers.
pub fn sum_of(numbers: &[u64]) -> u64
    requires { sum_below (length numbers.now) (slice_index numbers.now) ≤ 10 ^ 18 }
    ensures { result ≡ sum_below (length numbers.now) (slice_index numbers.now) }
{
    let mut total = 0;
    for k in 0..numbers.len() {
        total += numbers[k];
    }
    total
}

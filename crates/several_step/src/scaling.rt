//! Weights scaled up for a search: multipliers are whole numbers, so small weights are made large beside them.
ghost use Rattle.std.specs.Prelude.{◌≡◌, ℕ, ◌<◌, ◌≤◌, ◌^◌, true, pos, ◌+ℤ◌, ◌<ℤ◌, IsTrue};
ghost use Rattle.offer_model.specs.Problems.{product_count};
ghost use Rattle.linear_weights.specs.Weights.{AreWeights, IsWithin, weight_at};
ghost use Rattle.several_step.specs.Scales.{times, AreSmallEnough, AreScaled};

use linear_weights::Weights;
use offer_model::Problem;

/// By how much weights are scaled up: beside amounts below 10 multipliers are fine enough then.
const SCALE: i128 = 1024;

/// Prices and a constant of smaller size are scaled up, 2^88 and 2^96: they stay within the bounds of weights.
const SMALL_PRICE: i128 = 309_485_009_821_345_068_724_781_056;

const SMALL_CONSTANT: i128 = 79_228_162_514_264_337_593_543_950_336;

/// Whether the size of a number is below the bound.
fn is_small(z: i128, most: i128) -> bool
    requires { pos 0 <ℤ most }
    ensures { IsTrue result → (z <ℤ most) × (pos 0 <ℤ (z +ℤ most)) }
{
    z < most && z > -most
}

/// Whether all weights are small enough to be scaled up.
fn are_small(p: &Problem, weights: &Weights) -> bool
    requires { AreWeights p.now weights.now }
    ensures { IsTrue result → AreSmallEnough p.now weights.now }
{
    for i in 0..weights.len() {
        if !is_small(weights.get(i), SMALL_PRICE) {
            return false;
        }
    }
    is_small(weights.constant(), SMALL_CONSTANT)
}

/// The number scaled up, or as it is.
fn times(up: bool, z: i128) -> i128
    requires { up ≡ true → IsWithin (2 ^ 96) z }
    ensures { result ≡ times up z }
{
    if up { z * SCALE } else { z }
}

/// Writes the weights scaled up, or as they are.
fn fill(p: &Problem, weights: &Weights, up: bool, out: &mut Weights)
    requires weights { AreWeights p.now weights.now }
    requires small { up ≡ true → AreSmallEnough p.now weights.now }
    requires room { product_count p.now ≤ out.old.room }
    ensures weights { AreWeights p.now out.new }
    ensures constant { out.new.constant ≡ times up weights.now.constant }
    ensures price { (i : ℕ) → i < product_count p.now → weight_at out.new i ≡ times up (weight_at weights.now i) }
    ensures room { out.new.room ≡ out.old.room }
{
    out.restart(times(up, weights.constant()));
    for i in 0..weights.len() {
        out.push(times(up, weights.get(i)));
    }
}

/// Writes the weights scaled up where they and the floor are small enough, else as they are, and answers the floor among them. The
/// least number, which is no floor, stays.
pub fn scale_up(p: &Problem, weights: &Weights, floor: i128, scaled: &mut Weights) -> i128
    requires weights { AreWeights p.now weights.now }
    requires room { product_count p.now ≤ scaled.old.room }
    ensures weights { AreWeights p.now scaled.new }
    ensures scaled { AreScaled p.now weights.now floor scaled.new result }
    ensures room { scaled.new.room ≡ scaled.old.room }
{
    let free = floor == i128::MIN;
    let up = are_small(p, weights) && (free || is_small(floor, SMALL_CONSTANT));
    fill(p, weights, up, scaled);
    if free {
        return floor;
    }
    times(up, floor)
}

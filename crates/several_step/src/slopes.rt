//! How far an assortment is from what each limit allows, and how multipliers follow that.
ghost use Rattle.std.specs.Prelude.{◌≡◌, ℕ, ◌+◌, ◌<◌, ◌≤◌, ◌^◌, neg_ℤ, length, pos, ◌≤ℤ◌, slice_index};
ghost use Rattle.offer_model.specs.Problems.{product_count};
ghost use Rattle.offer_model.specs.Validity.{IsProblem, IsInRange, NamesExisting};
ghost use Rattle.offer_model.specs.LeafBounds.{priced_limits};
ghost use Rattle.multiplier_bound.specs.Fits.{AreSmall};

use multiplier_bound::{allowance, units};
use offer_model::{Assortment, Limit, Limits, Problem};

/// The greatest multiplier, 2^100.
pub const MOST_MULTIPLIER: u128 = 1_267_650_600_228_229_401_496_703_205_376;

/// What one unit more or less is worth in the sum of squares.
const UNIT: u128 = 1024;

/// One for an offered product.
fn flag(offered: bool) -> i128
    ensures least { pos 0 ≤ℤ result }
    ensures most { result ≤ℤ pos 1 }
{
    if offered { 1 } else { 0 }
}

/// The units of a cap or a shelf that the assortment uses.
fn used(p: &Problem, limit: Limit, x: &Assortment) -> u128
    requires few { product_count p.now ≤ 256 }
    requires long { length x.now ≡ product_count p.now }
    ensures { result ≤ 256000 }
{
    let mut used = 0u128;
    for i in 0..x.len() {
        if x.offers(i) {
            used += units(p, limit, i);
        }
    }
    used
}

/// How many units the assortment uses above what the limit allows.
fn excess(p: &Problem, limit: Limit, x: &Assortment) -> i128
    requires few { product_count p.now ≤ 256 }
    requires named { NamesExisting p.now limit }
    requires range { IsInRange limit }
    requires long { length x.now ≡ product_count p.now }
    ensures least { neg_ℤ (pos 1000) ≤ℤ result }
    ensures most { result ≤ℤ pos 256000 }
{
    match limit {
        Limit::Requires(a, b) => flag(x.offers(a)) - flag(x.offers(b)),
        _ => used(p, limit, x) as i128 - allowance(limit) as i128,
    }
}

/// The sum of the squares of what products use of a limit, at least 1.
pub fn square(p: &Problem, limit: Limit) -> u128
    requires { product_count p.now ≤ 256 }
    ensures { 1 ≤ result }
{
    if let Limit::Requires(_, _) = limit {
        return 2;
    }
    let mut sum = 0u128;
    for i in 0..p.products().len() {
        let used = units(p, limit, i);
        sum += used * used;
    }
    sum.max(1)
}

/// The excess over each limit that has a multiplier; 0 where there is room and the multiplier is 0.
pub fn measure(p: &Problem, priced: &Limits, x: &Assortment, us: &[u128], slopes: &mut [i128])
    requires valid { IsProblem p.now }
    requires priced { priced.now.items ≡ priced_limits p.now }
    requires long { length x.now ≡ product_count p.now }
    requires us { length us.now ≡ length priced.now.items }
    requires each { length slopes.old ≡ length priced.now.items }
    ensures { length slopes.new ≡ length slopes.old }
{
    for k in 0..priced.len() {
        let over = excess(p, *priced.get(k), x);
        slopes[k] = if over < 0 && us[k] == 0 { 0 } else { over };
    }
}

/// The squares of the slopes, each by its limit's own square.
pub fn steepness(slopes: &[i128], squares: &[u128]) -> u128
    requires { length squares.now ≡ length slopes.now }
{
    let mut sum = 0u128;
    for k in 0..slopes.len() {
        let size = slopes[k].unsigned_abs();
        let square = size.saturating_mul(size).saturating_mul(UNIT);
        sum = sum.saturating_add(square / squares[k].max(1));
    }
    sum
}

/// The multiplier after a step along its slope.
fn moved(u: u128, slope: i128, square: u128, step: u128) -> u128
    ensures { result ≤ 2 ^ 100 }
{
    let way = step.saturating_mul(slope.unsigned_abs()) / square.max(1);
    if slope < 0 {
        u.saturating_sub(way).min(MOST_MULTIPLIER)
    } else {
        u.saturating_add(way).min(MOST_MULTIPLIER)
    }
}

/// Moves all multipliers by a step along their slopes.
pub fn move_along(us: &mut Vec<u128>, slopes: &[i128], squares: &[u128], step: u128)
    requires slopes { length slopes.now ≡ length us.old.items }
    requires squares { length squares.now ≡ length us.old.items }
    requires small { AreSmall us.old.items }
    ensures us { length us.new.items ≡ length us.old.items }
    ensures small { AreSmall us.new.items }
{
    for k in 0..us.len() {
        us[k] = moved(us[k], slopes[k], squares[k], step);
    }
}

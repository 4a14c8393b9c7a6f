//! The tangent of mixed revenue at a node, which bounds all segments together.
ghost use Rattle.std.specs.Prelude.{◌≡◌, ◌≤◌, ◌<◌, ◌-◌, ◌*◌, ◌^◌, true, false, cond, length, vec_capacity};
ghost use Rattle.std.specs.List.{All, AllPairs};
ghost use Rattle.offer_model.specs.declared.products.ModelName.TheVariants.{Mixed};
ghost use Rattle.offer_model.specs.Problems.{product_count, segment_at};
ghost use Rattle.offer_model.specs.Assortments.{sum_below};
ghost use Rattle.offer_model.specs.Nodes.{mark_at, is_in, is_open};
ghost use Rattle.offer_model.specs.NodeValues.{AreGreatestValues};
ghost use Rattle.segment_bound.specs.Orders.{IsOrder, Precedes};
ghost use Rattle.segment_bound.specs.Sums.{AreSums};
ghost use Rattle.segment_bound.specs.Kept.{Fits, IsKept, IsListed};
ghost use Rattle.segment_bound.specs.Tangents.{parts, units_at, most_offered, room_at, tangent_bound};
ghost use Rattle.segment_bound.specs.Tops.{IsTopOf, Lists};
ghost use Rattle.segment_bound.specs.Slopes.{IsSlope, AreSlopes, open_attraction, gains_of, costs_of, raise_of, open_raise, heights_of, depths_of, AreSmall, IsCheap, HasSmallParts, HaveSmallParts};

use crate::order::{Ranked, is_in, is_open};
use crate::sums::Sums;
use crate::tops::{push_some, top_sum};
use offer_model::{Node, Problem, Segment, Segments, share};

/// A unit has so many parts, 2^60: the tangent is rounded down to units once, at the end.
const PARTS: u64 = 1_152_921_504_606_846_976;

/// What the tangent takes of a segment: its greatest value, size times unit, and the parts that stand for one of its weight.
#[derive(Clone, Copy, Default)]
pub struct Slope {
    pub units: u64,
    pub share: u64,
    pub scale: u64,
}

/// What a product gains in all segments, and what its weight costs there, in parts.
#[derive(Clone, Copy)]
pub struct Price {
    pub gains: u128,
    pub costs: u128,
}

/// How many of what is Open the cap leaves room for.
pub fn room_of(cap: usize, node: &Node) -> usize
    ensures { result ≡ cap - sum_below (length node.now) (λ i. cond (is_in (mark_at node.now i)) 1 0) }
{
    let mut taken = 0;
    for i in 0..node.len() {
        if is_in(node.mark(i)) {
            taken += 1;
        }
    }
    cap.saturating_sub(taken)
}

/// Lists the attractions of what is Open.
fn list_attractions(order: &[Ranked], segment: &Segment, node: &Node, numbers: &mut Vec<u128>)
    requires listed { All (IsListed (length node.now)) order.now }
    requires segment { length segment.now.attract ≡ length node.now }
    requires space { length order.now ≤ vec_capacity numbers.old }

    // Zeros elsewhere are left out.
    ensures lists { Lists (length order.now) (open_attraction order.now segment.now node.now) numbers.new.items }
    ensures small { All (λ x. x ≤ 10 ^ 9) numbers.new.items }
    ensures few { length numbers.new.items ≤ length order.now }
    ensures space { vec_capacity numbers.new ≡ vec_capacity numbers.old }
{
    numbers.clear();
    for r in 0..order.len() {
        let q = order[r];
        if is_open(node.mark(q.product)) {
            push_some(numbers, u128::from(segment.attract(q.product)));
        }
    }
}

/// The slope of segment `k`, from the sums of what is In and the greatest value.
fn slope_of(
    p: &Problem,
    k: usize,
    order: &[Ranked],
    segment: &Segment,
    node: &Node,
    sums: Sums,
    units: u64,
    room: usize,
    numbers: &mut Vec<u128>,
) -> Slope
    requires model { p.now.model ≡ Mixed }
    requires inside { k < length p.now.segments }
    requires order { IsOrder p.now order.now }
    requires segment { segment.now ≡ segment_at p.now k }
    requires node { length node.now ≡ product_count p.now }
    requires sums { AreSums order.now segment.now node.now sums }
    requires units { units ≡ units_at p.now node.now k }

    // Of the completions that there is room for.
    requires room { room ≡ room_at p.now node.now }
    requires space { length order.now ≤ vec_capacity numbers.old }
    ensures slope { IsSlope p.now node.now k result }
    ensures space { vec_capacity numbers.new ≡ vec_capacity numbers.old }
{
    let share = share(p, k) as u64;
    list_attractions(order, segment, node, numbers);
    let heaviest = sums.weight + top_sum(numbers, room) as u64;
    let scale = PARTS / heaviest;
    Slope {
        units,
        share,
        scale,
    }
}

/// The slopes of all segments.
pub fn find_slopes(
    p: &Problem,
    order: &[Ranked],
    segments: &Segments,
    node: &Node,
    sums: &[Sums],
    greatest: &[u64],
    room: usize,
    slopes: &mut [Slope],
    numbers: &mut Vec<u128>,
)
    requires fits { Fits p.now (record { order = order.now; segments = segments.now.items }) }
    requires kept { IsKept order.now segments.now.items node.now sums.now }
    requires greatest { AreGreatestValues p.now node.now greatest.now }
    requires each { length slopes.old ≡ length p.now.segments }

    // Of the completions that there is room for.
    requires room { room ≡ room_at p.now node.now }
    requires space { length order.now ≤ vec_capacity numbers.old }
    ensures slopes { AreSlopes p.now node.now slopes.new }
    ensures space { vec_capacity numbers.new ≡ vec_capacity numbers.old }
{
    for k in 0..sums.len() {
        slopes[k] = slope_of(
            p,
            k,
            order,
            segments.get(k),
            node,
            sums[k],
            greatest[k],
            room,
            numbers,
        );
    }
}

/// What the product gains in all segments, and what its weight costs there, in parts: what offering it adds to the tangent, and
/// what it takes away.
pub fn price_of(q: Ranked, segments: &Segments, slopes: &[Slope]) -> Price
    requires inside { All (λ g. q.product < length g.attract) segments.now.items }
    requires each { length slopes.now ≡ length segments.now.items }
    requires margin { q.margin ≤ 10 ^ 9 }
    requires small { AreSmall slopes.now }
    requires parts { HasSmallParts segments.now.items slopes.now q }
    ensures gains { result.gains ≡ gains_of segments.now.items slopes.now q (length slopes.now) }
    ensures costs { result.costs ≡ costs_of segments.now.items slopes.now q (length slopes.now) }

    // Either is at most 10^18 units.
    ensures most_gains { result.gains ≤ 2 ^ 60 * 10 ^ 18 }
    ensures most_costs { result.costs ≤ 2 ^ 60 * 10 ^ 18 }
{
    let mut gains = 0u128;
    let mut costs = 0u128;
    for k in 0..slopes.len() {
        let slope = slopes[k];
        let parts = u128::from(slope.scale * segments.get(k).attract(q.product));
        gains += parts * u128::from(slope.share * q.margin);
        costs += parts * u128::from(slope.units);
    }
    Price { gains, costs }
}

/// What offering the product raises the tangent by, in parts, and 0 where it would lower it.
fn raise(q: Ranked, segments: &Segments, slopes: &[Slope]) -> u128
    requires inside { All (λ g. q.product < length g.attract) segments.now.items }
    requires each { length slopes.now ≡ length segments.now.items }
    requires margin { q.margin ≤ 10 ^ 9 }
    requires small { AreSmall slopes.now }
    requires parts { HasSmallParts segments.now.items slopes.now q }

    // A difference, but not below 0.
    ensures value { result ≡ raise_of segments.now.items slopes.now q }
    ensures bound { result ≤ 2 ^ 60 * 10 ^ 18 }
{
    let price = price_of(q, segments, slopes);
    price.gains.saturating_sub(price.costs)
}

/// Whether some segment gives the margin a gain above what the weight costs there.
fn is_dear(margin: u64, slopes: &[Slope]) -> bool
    requires small { AreSmall slopes.now }
    requires margin { margin ≤ 10 ^ 9 }
    ensures cheap { result ≡ false → IsCheap slopes.now margin }
    ensures dear { result ≡ true → IsCheap slopes.now margin → ⊥ }
{
    for k in 0..slopes.len() {
        let slope = slopes[k];
        if slope.units < slope.share * margin {
            return true;
        }
    }
    false
}

/// Lists what offering each Open product raises the tangent by. By falling margin, so it ends where no segment gains.
fn list_raises(
    order: &[Ranked],
    node: &Node,
    segments: &Segments,
    slopes: &[Slope],
    numbers: &mut Vec<u128>,
)
    requires listed { All (IsListed (length node.now)) order.now }
    requires falling { AllPairs Precedes order.now }
    requires attracts { All (λ g. length g.attract ≡ length node.now) segments.now.items }
    requires each { length slopes.now ≡ length segments.now.items }
    requires small { AreSmall slopes.now }
    requires parts { All (λ q. is_open (mark_at node.now q.product) ≡ true
        → HasSmallParts segments.now.items slopes.now q) order.now }
    requires space { length order.now ≤ vec_capacity numbers.old }

    // Zeros elsewhere are left out.
    ensures lists { Lists (length order.now) (open_raise order.now segments.now.items slopes.now node.now) numbers.new.items }
    ensures small { All (λ x. x ≤ 2 ^ 60 * 10 ^ 18) numbers.new.items }
    ensures few { length numbers.new.items ≤ length order.now }
    ensures space { vec_capacity numbers.new ≡ vec_capacity numbers.old }
{
    numbers.clear();
    for r in 0..order.len() {
        let q = order[r];
        if !is_dear(q.margin, slopes) {
            return;
        }
        if is_open(node.mark(q.product)) {
            push_some(numbers, raise(q, segments, slopes));
        }
    }
}

/// The sum of what raises the tangent most, of as many Open products as there is room for, in parts.
fn raises(
    order: &[Ranked],
    node: &Node,
    segments: &Segments,
    slopes: &[Slope],
    room: usize,
    numbers: &mut Vec<u128>,
) -> u128
    requires listed { All (IsListed (length node.now)) order.now }
    requires falling { AllPairs Precedes order.now }
    requires few { length order.now ≤ 256 }
    requires attracts { All (λ g. length g.attract ≡ length node.now) segments.now.items }
    requires each { length slopes.now ≡ length segments.now.items }
    requires small { AreSmall slopes.now }
    requires parts { 0 < room → All (λ q. is_open (mark_at node.now q.product) ≡ true
        → HasSmallParts segments.now.items slopes.now q) order.now }
    requires space { length order.now ≤ vec_capacity numbers.old }

    // Where there is no room nothing is listed.
    ensures top { IsTopOf (length order.now) (open_raise order.now segments.now.items slopes.now node.now) room result }
    ensures bound { result ≤ 256 * (2 ^ 60 * 10 ^ 18) }
    ensures space { vec_capacity numbers.new ≡ vec_capacity numbers.old }
{
    if room == 0 {
        return 0;
    }
    list_raises(order, node, segments, slopes, numbers);
    top_sum(numbers, room)
}

/// What speaks for offering what is In alone, in parts: the greatest values, and its gains.
fn heights(sums: &[Sums], slopes: &[Slope]) -> u128
    requires each { length sums.now ≡ length slopes.now }
    requires small { AreSmall slopes.now }
    requires parts { HaveSmallParts sums.now slopes.now }
    ensures value { result ≡ heights_of sums.now slopes.now (length slopes.now) }
    ensures bound { result ≤ 2 ^ 61 * 10 ^ 18 }
{
    let mut total = 0u128;
    for k in 0..slopes.len() {
        let slope = slopes[k];
        let gain = u128::from(slope.share) * sums[k].gain;
        let own = u128::from(PARTS) * u128::from(slope.units);
        total += own + u128::from(slope.scale) * gain;
    }
    total
}

/// What speaks against it, in parts: the gains that the greatest values would need at its weights.
fn depths(sums: &[Sums], slopes: &[Slope]) -> u128
    requires each { length sums.now ≡ length slopes.now }
    requires small { AreSmall slopes.now }
    requires parts { HaveSmallParts sums.now slopes.now }
    ensures { result ≡ depths_of sums.now slopes.now (length slopes.now) }
{
    let mut total = 0u128;
    for k in 0..slopes.len() {
        let slope = slopes[k];
        let parts = u128::from(slope.scale * sums[k].weight);
        total += parts * u128::from(slope.units);
    }
    total
}

/// The tangent's greatest number over the completions of the node that there is room for, rounded down to units.
pub fn tangent(
    p: &Problem,
    order: &[Ranked],
    segments: &Segments,
    node: &Node,
    sums: &[Sums],
    greatest: &[u64],
    cap: usize,
    slopes: &mut [Slope],
    numbers: &mut Vec<u128>,
) -> u128
    requires fits { Fits p.now (record { order = order.now; segments = segments.now.items }) }
    requires kept { IsKept order.now segments.now.items node.now sums.now }
    requires greatest { AreGreatestValues p.now node.now greatest.now }
    requires each { length slopes.old ≡ length p.now.segments }

    // How many products the caps allow, and what is reused from call to call.
    requires cap { cap ≡ most_offered p.now }
    requires space { length order.now ≤ vec_capacity numbers.old }
    ensures value { result ≡ tangent_bound p.now node.now }
    ensures each { length slopes.new ≡ length slopes.old }
    ensures space { vec_capacity numbers.new ≡ vec_capacity numbers.old }
{
    let room = room_of(cap, node);
    find_slopes(
        p, order, segments, node, sums, greatest, room, slopes, numbers,
    );
    let top = raises(order, node, segments, slopes, room, numbers);
    (heights(sums, slopes) + top).saturating_sub(depths(sums, slopes)) / u128::from(PARTS)
}

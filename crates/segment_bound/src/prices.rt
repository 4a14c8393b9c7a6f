//! The products by falling price: what offering each raises the tangent by.
ghost use Rattle.std.specs.Prelude.{◌≡◌, ◌≤◌, ◌<◌, true, length, vec_capacity, IfOk};
ghost use Rattle.std.specs.List.{All};
ghost use Rattle.offer_model.specs.Problems.{product_count};
ghost use Rattle.offer_model.specs.Nodes.{mark_at, is_open};
ghost use Rattle.offer_model.specs.NodeValues.{AreGreatestValues};
ghost use Rattle.segment_bound.specs.Kept.{Fits, IsKept, IsListed};
ghost use Rattle.segment_bound.specs.Tangents.{most_offered};
ghost use Rattle.segment_bound.specs.Slopes.{AreSmall, HasSmallParts};

use crate::order::{Ranked, is_open};
use crate::sums::Sums;
use crate::tangent::{Slope, find_slopes, price_of, room_of};
use offer_model::{NoMemory, Node, Problem, Segments};
use std::alloc::Global;

/// No product gains more parts than so many: 10^18 units of 2^60 parts each.
const MOST: u128 = 1_152_921_504_606_846_976_000_000_000_000_000_000;

/// For each product that is Open what its price lacks of the greatest there may be. Where it lowers the tangent, that is more.
fn lack_each(
    order: &[Ranked],
    node: &Node,
    segments: &Segments,
    slopes: &[Slope],
    room: usize,
    lacks: &mut [u128],
)
    requires listed { All (IsListed (length node.now)) order.now }
    requires attracts { All (λ g. length g.attract ≡ length node.now) segments.now.items }
    requires each { length slopes.now ≡ length segments.now.items }
    requires small { AreSmall slopes.now }
    requires parts { 0 < room → All (λ q. is_open (mark_at node.now q.product) ≡ true
        → HasSmallParts segments.now.items slopes.now q) order.now }

    // Where there is no room nothing changes.
    requires lacks { length lacks.old ≡ length node.now }
    ensures lacks { length lacks.new ≡ length lacks.old }
{
    if room == 0 {
        return;
    }
    for r in 0..order.len() {
        let q = order[r];
        if is_open(node.mark(q.product)) {
            let price = price_of(q, segments, slopes);
            lacks[q.product] = MOST - price.gains + price.costs;
        }
    }
}

/// The places of the numbers by rising number, and of equal numbers by place.
fn places_rising(alloc: Global, numbers: &[u128]) -> Result<Vec<usize>, NoMemory>
    ensures { IfOk result (λ order. All (λ i. i < length numbers.now) order.items) }
{
    let mut order = Vec::with_capacity(alloc, numbers.len())?;
    for i in 0..numbers.len() {
        order.push_reserved(i);
    }
    order.sort_by_key(|i| numbers.get(*i).copied().unwrap_or(0))?;
    Ok(order)
}

/// The products by falling price at the node, equal prices by place: what offering each raises the tangent by, below 0 where it
/// lowers it. Where the caps leave no room, in catalogue order.
pub fn by_price(
    alloc: Global,
    p: &Problem,
    order: &[Ranked],
    segments: &Segments,
    node: &Node,
    sums: &[Sums],
    greatest: &[u64],
    cap: usize,
    slopes: &mut [Slope],
    numbers: &mut Vec<u128>,
) -> Result<Vec<usize>, NoMemory>
    requires fits { Fits p.now (record { order = order.now; segments = segments.now.items }) }
    requires kept { IsKept order.now segments.now.items node.now sums.now }
    requires greatest { AreGreatestValues p.now node.now greatest.now }
    requires each { length slopes.old ≡ length p.now.segments }

    // How many products the caps allow.
    requires cap { cap ≡ most_offered p.now }
    requires space { length order.now ≤ vec_capacity numbers.old }
    ensures inside { IfOk result (λ prices. All (λ i. i < product_count p.now) prices.items) }
{
    let mut lacks = vec![in alloc; 0u128; node.len()]?;
    let room = room_of(cap, node);
    find_slopes(
        p, order, segments, node, sums, greatest, room, slopes, numbers,
    );
    lack_each(order, node, segments, slopes, room, &mut lacks);
    places_rising(alloc, &lacks)
}

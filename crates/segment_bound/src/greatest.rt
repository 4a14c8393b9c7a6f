//! The greatest value that a node's completions bring in one segment.
ghost use Rattle.std.specs.Prelude.{◌≡◌, ℕ, ◌*◌, ◌≤◌, ◌<◌, ◌^◌, length};
ghost use Rattle.std.specs.List.{All, AllPairs};
ghost use Rattle.offer_model.specs.declared.products.ModelName.TheVariants.{Mixed};
ghost use Rattle.offer_model.specs.Problems.{product_count, segment_at};
ghost use Rattle.offer_model.specs.Revenue.{segment_value};
ghost use Rattle.segment_bound.specs.Orders.{Precedes, IsOrder};
ghost use Rattle.segment_bound.specs.Sums.{AreSums, IsReached};
ghost use Rattle.segment_bound.specs.Greatest.{greatest};
ghost use Rattle.segment_bound.specs.Kept.{IsListed};

use crate::order::{Ranked, is_open};
use crate::sums::{Sums, is_below, taken_if};
use offer_model::{Node, Problem, Segment, share};

/// The sums with the Open products by falling margin, as long as the margin is above their ratio. They then hold exactly those
/// whose margin is above the ratio that is reached, so no choice of Open products has a greater one.
fn reach(order: &[Ranked], segment: &Segment, node: &Node, start: Sums) -> Sums
    requires falling { AllPairs Precedes order.now }
    requires listed { All (IsListed (length node.now)) order.now }
    requires few { length order.now ≤ 256 }
    requires segment { length segment.now.attract ≡ length node.now }
    requires start { (start.gain ≤ 256 * 10 ^ 18) × (start.weight ≤ 257 * 10 ^ 9) }
    ensures reached { IsReached order.now segment.now node.now start result }
    ensures gain { result.gain ≤ 512 * 10 ^ 18 }
{
    let mut sums = start;
    for q in order {
        if !is_below(sums, q.margin) {
            return sums;
        }
        let taken = is_open(node.mark(q.product));
        sums = taken_if(taken, *q, segment.attract(q.product), sums);
    }
    sums
}

/// The greatest value that the completions bring in segment `k`, from the sums of what is In.
pub fn greatest(
    p: &Problem,
    k: usize,
    order: &[Ranked],
    segment: &Segment,
    node: &Node,
    start: Sums,
) -> u64
    requires model { p.now.model ≡ Mixed }
    requires inside { k < length p.now.segments }
    requires order { IsOrder p.now order.now }
    requires segment { segment.now ≡ segment_at p.now k }
    requires node { length node.now ≡ product_count p.now }
    requires start { AreSums order.now segment.now node.now start }
    ensures greatest { result ≡ greatest (segment_value p.now (segment_at p.now k)) node.now }
    ensures bound { result ≤ 10 ^ 18 }
{
    let share = share(p, k);
    let sums = reach(order, segment, node, start);
    (share * sums.gain / u128::from(sums.weight)) as u64
}

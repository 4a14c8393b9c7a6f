//! Sums over what is In follow from one node to the next.
ghost use Rattle.std.specs.Prelude.{◌≡◌, ◌<◌, length};
ghost use Rattle.segment_bound.specs.Kept.{IsKept, with_mark_of};

use crate::order::{Ranked, is_in};
use crate::sums::{Sums, move_each};
use offer_model::{Node, Segments};

/// The sums follow the mark of one product, the one of rank `r`.
fn settle(
    r: usize,
    order: &[Ranked],
    segments: &Segments,
    node: &Node,
    last: &mut Node,
    sums: &mut [Sums],
)
    requires rank { r < length order.now }
    requires node { length node.now ≡ length order.now }
    requires kept { IsKept order.now segments.now.items last.old sums.old }
    ensures kept { IsKept order.now segments.now.items last.new sums.new }
    ensures last { last.new ≡ with_mark_of node.now order.now r last.old }
{
    let q = order[r];
    let was = last.mark(q.product);
    let mark = node.mark(q.product);
    if was != mark {
        move_each(is_in(was), is_in(mark), q, segments, sums);
        last.set(q.product, mark);
    }
}

/// The sums of the last node become those of the node, by the marks that differ.
pub fn follow(
    order: &[Ranked],
    segments: &Segments,
    node: &Node,
    last: &mut Node,
    sums: &mut [Sums],
)
    requires node { length node.now ≡ length order.now }
    requires kept { IsKept order.now segments.now.items last.old sums.old }
    ensures kept { IsKept order.now segments.now.items node.now sums.new }
    ensures last { last.new ≡ node.now }
{
    for r in 0..order.len() {
        settle(r, order, segments, node, last, sums);
    }
}

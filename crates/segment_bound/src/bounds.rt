//! The greatest values of a node, segment by segment.
ghost use Rattle.std.specs.Prelude.{◌≡◌, ◌≤◌, ◌<◌, length, min, true, false, vec_capacity, IfOk};
ghost use Rattle.std.specs.List.{All};
ghost use Rattle.offer_model.specs.declared.products.ModelName.TheVariants.{Mixed};
ghost use Rattle.offer_model.specs.Problems.{product_count};
ghost use Rattle.offer_model.specs.NodeValues.{AreGreatestValues};
ghost use Rattle.segment_bound.specs.Orders.{dearest, IsDearest};
ghost use Rattle.segment_bound.specs.Kept.{Fits, IsKept, AreEmptySums};
ghost use Rattle.segment_bound.specs.MixedGoals.{greatest_sum};
ghost use Rattle.segment_bound.specs.Slopes.{AreReached};
ghost use Rattle.segment_bound.specs.Tangents.{most_offered, tangent_bound};

use crate::caps::most_offered;
use crate::follow::follow;
use crate::greatest::greatest;
use crate::order::{Ranked, by_margin, first_open};
use crate::prices::by_price;
use crate::sums::{Sums, sum_of};
use crate::tangent::{Slope, tangent};
use offer_model::{NoMemory, Node, Problem, Segments, copy_segments, share};
use std::alloc::Global;
use std::marker::Model;

/// The products of a problem by falling margin, and the sums of what is In at the node that was last asked about. The segments are
/// kept with them, so that the sums are of these numbers whatever the caller does with the problem.
#[derive(Drop)]
pub struct Bounds {
    order: Vec<Ranked>,
    segments: Segments,
    last: Node,
    sums: Vec<Sums>,
}

impl Model for Bounds {
    ghost use Rattle.segment_bound.specs.Kept.{BoundsData, IsKept};

    ghost Value = { BoundsData };

    ghost view = { λ b. record { order = b.order.items; segments = b.segments.items } };

    ghost invariant = { λ b. IsKept b.order.items b.segments.items b.last b.sums.items };
}

/// Of each segment the sums where nothing is In: the weight of buying nothing.
fn empty_sums(alloc: Global, segments: &Segments) -> Result<Vec<Sums>, NoMemory>
    ensures { IfOk result (λ sums. AreEmptySums segments.now.items sums.items) }
{
    let mut sums = Vec::with_capacity(alloc, segments.len())?;
    for k in 0..segments.len() {
        sums.push_reserved(Sums {
            gain: 0,
            weight: segments.get(k).none(),
        });
    }
    Ok(sums)
}

/// For each segment the greatest value of the completions, where the sums are those of the node.
fn greatest_each(
    p: &Problem,
    order: &[Ranked],
    segments: &Segments,
    sums: &[Sums],
    node: &Node,
    out: &mut [u64],
)
    requires fits { Fits p.now (record { order = order.now; segments = segments.now.items }) }
    requires kept { IsKept order.now segments.now.items node.now sums.now }
    requires each { length out.old ≡ length p.now.segments }
    ensures values { AreGreatestValues p.now node.now out.new }
{
    for k in 0..sums.len() {
        out[k] = greatest(p, k, order, segments.get(k), node, sums[k]);
    }
}

/// Whether what is In alone brings each segment's greatest value. The tangent isn't below their sum then.
fn are_reached(
    p: &Problem,
    order: &[Ranked],
    segments: &Segments,
    sums: &[Sums],
    node: &Node,
    greatest: &[u64],
) -> bool
    requires fits { Fits p.now (record { order = order.now; segments = segments.now.items }) }
    requires kept { IsKept order.now segments.now.items node.now sums.now }
    requires greatest { AreGreatestValues p.now node.now greatest.now }
    ensures below { result ≡ true → greatest_sum p.now node.now ≤ tangent_bound p.now node.now }
    ensures short { result ≡ false → AreReached p.now node.now sums.now → ⊥ }
{
    for k in 0..sums.len() {
        let needed = u128::from(greatest[k]) * u128::from(sums[k].weight);
        if share(p, k) * sums[k].gain < needed {
            return false;
        }
    }
    true
}

impl Bounds {
    /// The bounds of a problem, asked about nothing so far.
    pub fn prepare(alloc: Global, p: &Problem) -> Result<Bounds, NoMemory>
        requires model { p.now.model ≡ Mixed }
        ensures fits { IfOk result (λ b. Fits p.now b) }
    {
        let order = by_margin(alloc, p)?;
        let segments = copy_segments(alloc, p.segments())?;
        let last = Node::open(alloc, p.products().len())?;
        let sums = empty_sums(alloc, &segments)?;
        Ok(Bounds {
            order,
            segments,
            last,
            sums,
        })
    }

    /// For each segment the greatest value over the completions of the node, limits left aside.
    pub fn bounds(&mut self, p: &Problem, node: &Node, out: &mut [u64])
        requires fits { Fits p.now self.old }
        requires node { length node.now ≡ product_count p.now }
        requires each { length out.old ≡ length p.now.segments }
        ensures values { AreGreatestValues p.now node.now out.new }
        ensures same { self.new ≡ self.old }
    {
        follow(
            &self.order,
            &self.segments,
            node,
            &mut self.last,
            &mut self.sums,
        );
        greatest_each(p, &self.order, &self.segments, &self.sums, node, out);
    }

    /// The lesser of the sum of the same numbers and the greatest number of the tangent over the completions of the node, rounded
    /// down to units. The tangent is asked only where what is In alone falls short of a greatest value.
    pub fn lesser(
        &mut self,
        p: &Problem,
        node: &Node,
        out: &mut [u64],
        cap: usize,
        slopes: &mut [Slope],
        numbers: &mut Vec<u128>,
    ) -> u128
        requires fits { Fits p.now self.old }
        requires node { length node.now ≡ product_count p.now }
        requires each { length out.old ≡ length p.now.segments }
        requires slopes { length slopes.old ≡ length p.now.segments }

        // How many products the caps allow, and what is reused from call to call.
        requires cap { cap ≡ most_offered p.now }
        requires space { product_count p.now ≤ vec_capacity numbers.old }
        ensures bound { result ≡ min (greatest_sum p.now node.now) (tangent_bound p.now node.now) }
        ensures values { AreGreatestValues p.now node.now out.new }
        ensures slopes { length slopes.new ≡ length slopes.old }
        ensures space { vec_capacity numbers.new ≡ vec_capacity numbers.old }
        ensures same { self.new ≡ self.old }
    {
        follow(
            &self.order,
            &self.segments,
            node,
            &mut self.last,
            &mut self.sums,
        );
        greatest_each(p, &self.order, &self.segments, &self.sums, node, out);
        let apart = u128::from(sum_of(out));
        if are_reached(p, &self.order, &self.segments, &self.sums, node, out) {
            return apart;
        }
        let together = tangent(
            p,
            &self.order,
            &self.segments,
            node,
            &self.sums,
            out,
            cap,
            slopes,
            numbers,
        );
        apart.min(together)
    }

    /// The products by falling price at the node: what offering each raises the tangent by.
    pub(crate) fn by_price(
        &mut self,
        alloc: Global,
        p: &Problem,
        node: &Node,
    ) -> Result<Vec<usize>, NoMemory>
        requires fits { Fits p.now self.old }
        requires node { length node.now ≡ product_count p.now }
        ensures inside { IfOk result (λ order. All (λ i. i < product_count p.now) order.items) }
    {
        follow(
            &self.order,
            &self.segments,
            node,
            &mut self.last,
            &mut self.sums,
        );
        let mut greatest = vec![in alloc; 0; self.sums.len()]?;
        let mut slopes = vec![in alloc; Slope::default(); self.sums.len()]?;
        let mut numbers = Vec::new(alloc);
        numbers.reserve(self.order.len())?;
        greatest_each(
            p,
            &self.order,
            &self.segments,
            &self.sums,
            node,
            &mut greatest,
        );
        by_price(
            alloc,
            p,
            &self.order,
            &self.segments,
            node,
            &self.sums,
            &greatest,
            most_offered(p),
            &mut slopes,
            &mut numbers,
        )
    }

    /// The Open product of greatest margin, the first of several, or `None` where nothing is Open.
    pub fn dearest_open(&self, p: &Problem, node: &Node) -> Option<usize>
        requires fits { Fits p.now self.now }
        requires node { length node.now ≡ product_count p.now }
        ensures dearest { IsDearest p.now node.now result }
        ensures number { result ≡ dearest p.now node.now }
    {
        first_open(&self.order, node)
    }
}

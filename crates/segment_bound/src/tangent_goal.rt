//! The goal of mixed logit with a bound over all segments together.
ghost use Rattle.std.specs.Prelude.{◌≡◌, ◌≤◌, ◌<◌, length, min, pos, vec_capacity, IfOk};
ghost use Rattle.std.specs.List.{All};
ghost use Rattle.offer_model.specs.declared.products.ModelName.TheVariants.{Mixed};
ghost use Rattle.offer_model.specs.Problems.{product_count};
ghost use Rattle.tree_search.specs.AnswerRanges.{AnswersInRange};
ghost use Rattle.segment_bound.specs.Kept.{Fits};
ghost use Rattle.segment_bound.specs.MixedGoals.{greatest_sum};
ghost use Rattle.segment_bound.specs.Tangents.{most_offered, tangent_bound, next_in, tangent_rules};

use crate::bounds::Bounds;
use crate::caps::most_offered;
use crate::order::is_open;
use crate::tangent::Slope;
use limit_rules::{clashes, first_broken};
use offer_model::{Assortment, NoMemory, Node, Problem, mixed_value};
use std::alloc::Global;
use std::marker::Model;
use tree_search::Goal;

/// The goal of mixed logit, with the lesser of two bounds: the sum of the segments' greatest values, and the greatest number of the
/// tangent, which sees that one assortment serves all segments and keeps to the caps. Nodes are divided by an order of the products
/// that is found once: by falling price, which is what offering a product raises the tangent by where no product is settled yet.
#[derive(Drop)]
pub struct TangentGoal<'a> {
    problem: &'a Problem,
    order: Vec<usize>,
    bounds: Bounds,
    greatest: Vec<u64>,
    slopes: Vec<Slope>,
    cap: usize,
    numbers: Vec<u128>,
}

impl<'a> Model for TangentGoal<'a> {
    ghost use Rattle.std.specs.Prelude.{◌≡◌, ◌≤◌, ◌<◌, length, vec_capacity};
    ghost use Rattle.std.specs.List.{All};
    ghost use Rattle.offer_model.specs.Problems.{product_count};
    ghost use Rattle.segment_bound.specs.Kept.{Fits};
    ghost use Rattle.segment_bound.specs.Tangents.{TangentGoalData, most_offered};

    ghost Value = { TangentGoalData };

    ghost view = { λ g. record { problem = g.problem.now; order = g.order.items } };

    ghost invariant = { λ g. Fits g.problem.now g.bounds × (length g.greatest.items ≡ length g.problem.now.segments)
        × (length g.slopes.items ≡ length g.problem.now.segments) × (g.cap ≡ most_offered g.problem.now)
        × (product_count g.problem.now ≤ vec_capacity g.numbers) × All (λ i. i < product_count g.problem.now) g.order.items };
}

/// The products by falling price where no product is settled yet.
fn order_of(alloc: Global, p: &Problem) -> Result<Vec<usize>, NoMemory>
    requires model { p.now.model ≡ Mixed }
    ensures inside { IfOk result (λ order. All (λ i. i < product_count p.now) order.items) }
{
    let root = Node::open(alloc, p.products().len())?;
    let mut bounds = Bounds::prepare(alloc, p)?;
    bounds.by_price(alloc, p, &root)
}

impl<'a> TangentGoal<'a> {
    /// The goal of a problem whose nodes are divided in the order.
    fn in_order(
        alloc: Global,
        problem: &'a Problem,
        order: Vec<usize>,
    ) -> Result<TangentGoal<'a>, NoMemory>
        requires model { problem.now.model ≡ Mixed }
        requires inside { All (λ i. i < product_count problem.now) order.items }
        ensures goal { IfOk result (λ g. g ≡ record { problem = problem.now; order = order.items }) }
    {
        let segments = problem.segments();
        let bounds = Bounds::prepare(alloc, problem)?;
        let greatest = vec![in alloc; 0; segments.len()]?;
        let slopes = vec![in alloc; Slope::default(); segments.len()]?;
        let cap = most_offered(problem);
        let mut numbers = Vec::new(alloc);
        numbers.reserve(problem.products().len())?;
        Ok(TangentGoal {
            problem,
            order,
            bounds,
            greatest,
            slopes,
            cap,
            numbers,
        })
    }

    #[tactic(auto, using(crate::proofs::GoalLemmas::tangent_in_range))]
    /// The goal of a problem. Its values and bounds are from 0 to 2^60.
    pub fn prepare(alloc: Global, problem: &'a Problem) -> Result<TangentGoal<'a>, NoMemory>
        requires model { problem.now.model ≡ Mixed }
        ensures goal { IfOk result (λ g. g.problem ≡ problem.now) }
        ensures range { IfOk result (λ g. AnswersInRange (tangent_rules g.problem g.order)) }
    {
        let order = order_of(alloc, problem)?;
        TangentGoal::in_order(alloc, problem, order)
    }
}

/// The lesser of both bounds of the node.
fn lesser(
    bounds: &mut Bounds,
    p: &Problem,
    node: &Node,
    greatest: &mut [u64],
    cap: usize,
    slopes: &mut [Slope],
    numbers: &mut Vec<u128>,
) -> i128
    requires fits { Fits p.now bounds.old }
    requires node { length node.now ≡ product_count p.now }
    requires each { length greatest.old ≡ length p.now.segments }

    // How many products the caps allow, and what is reused from call to call.
    requires cap { cap ≡ most_offered p.now }
    requires slopes { length slopes.old ≡ length p.now.segments }
    requires space { product_count p.now ≤ vec_capacity numbers.old }
    ensures bound { result ≡ pos (min (greatest_sum p.now node.now) (tangent_bound p.now node.now)) }
    ensures same { bounds.new ≡ bounds.old }
    ensures each { length greatest.new ≡ length greatest.old }
    ensures slopes { length slopes.new ≡ length slopes.old }
    ensures space { vec_capacity numbers.new ≡ vec_capacity numbers.old }
{
    bounds.lesser(p, node, greatest, cap, slopes, numbers) as i128
}

#[tactic(auto, using(crate::proofs::NextLemmas::next_here, crate::proofs::NextLemmas::next_step))]
/// The first Open product of the order, and the dearest one where the order has none.
fn next_in(bounds: &Bounds, p: &Problem, order: &[usize], node: &Node) -> Option<usize>
    requires fits { Fits p.now bounds.now }
    requires node { length node.now ≡ product_count p.now }
    requires inside { All (λ i. i < product_count p.now) order.now }
    ensures { result ≡ next_in p.now node.now order.now }
{
    for i in order {
        if is_open(node.mark(*i)) {
            return Some(*i);
        }
    }
    bounds.dearest_open(p, node)
}

impl Goal for TangentGoal<'_> {
    ghost use Rattle.segment_bound.specs.Tangents.{tangent_rules};
    ghost use Rattle.segment_bound.specs.TangentLaws.{tangent_lawful};

    ghost rules = { λ g. tangent_rules g.problem g.order };

    fn products(&self) -> usize {
        self.problem.products().len()
    }

    fn value(&self, x: &Assortment) -> i128 {
        mixed_value(self.problem, x) as i128
    }

    fn feasible(&self, x: &Assortment) -> bool {
        first_broken(self.problem, x).is_none()
    }

    fn clash(&self, node: &Node) -> bool {
        clashes(self.problem, node)
    }

    fn bound(&mut self, node: &Node) -> i128 {
        lesser(
            &mut self.bounds,
            self.problem,
            node,
            &mut self.greatest,
            self.cap,
            &mut self.slopes,
            &mut self.numbers,
        )
    }

    fn next(&self, node: &Node) -> Option<usize> {
        next_in(&self.bounds, self.problem, &self.order, node)
    }

    fn fork(&self, alloc: Global) -> Result<Self, NoMemory> {
        let order = self.order.to_vec(alloc)?;
        TangentGoal::in_order(alloc, self.problem, order)
    }

    ghost lawful = { λ g. tangent_lawful g.problem g.order };
}

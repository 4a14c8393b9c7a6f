//! The rule of certificates of mixed logit: a search with each segment's greatest value.
ghost use Rattle.std.specs.Prelude.{◌≡◌, ◌+◌, ◌≤◌, ◌↔◌, length, IfOk, IsTrue};
ghost use Rattle.offer_model.specs.declared.products.ModelName.TheVariants.{Mixed};
ghost use Rattle.offer_model.specs.Best.{IsBest};
ghost use Rattle.offer_model.specs.LeafBounds.{segments_bound};
ghost use Rattle.offer_model.specs.NodeValues.{AreGreatestValues};
ghost use Rattle.offer_model.specs.Problems.{product_count};
ghost use Rattle.segment_bound.specs.Kept.{Fits};
ghost use Rattle.proof_lines.specs.declared.line.Shape.TheVariants as Shapes;
ghost use Rattle.proof_write.specs.Searches.{SumCloses};

use crate::header::bare;
use limit_rules::{clashes, comes_after};
use offer_model::{Assortment, Bytes, NoMemory, Node, Problem, Wide, mixed_value};
use proof_lines::{Line, Shape, print_line};
use proof_tree::TreeRule;
use segment_bound::Bounds;
use std::alloc::Global;
use std::marker::Model;

/// At each node `x` where it clashes; else `s` with each segment's greatest value, where that closes it; else a branch on the
/// first Open product by falling margin, then by position.
#[derive(Drop)]
pub(crate) struct MixedRule<'a> {
    problem: &'a Problem,
    best: &'a Assortment,
    value: u128,
    bounds: Bounds,
    values: Vec<u64>,
    clash: Line,
    segments: Line,
}

impl<'a> Model for MixedRule<'a> {
    ghost use Rattle.proof_write.specs.Searches.{SearchData};
    ghost use Rattle.proof_write.specs.MixedRules.{IsMixedRule};

    ghost Value = { SearchData };

    ghost view = { λ r. record { problem = r.problem.now; best = r.best.now } };

    ghost invariant = { λ r. IsMixedRule r.problem.now r.best.now r.value r.bounds r.values.items r.clash r.segments };
}

/// The sum of numbers, in units.
fn sum_of(values: &[u64]) -> u128
    ensures { result ≡ segments_bound values.now }
{
    let mut sum = 0u128;
    for k in 0..values.len() {
        sum += u128::from(values[k]);
    }
    sum
}

/// Whether a sum of segments' numbers closes the node.
fn sum_closes(sum: u128, value: u128, x: &Assortment, node: &Node) -> bool
    requires { length x.now ≡ length node.now }
    ensures { IsTrue result ↔ SumCloses sum value x.now node.now }
{
    if sum != value {
        return sum < value;
    }
    comes_after(node, x)
}

/// The numbers in place of those of the leaf.
fn refill(values: &[u64], leaf: &mut Line)
    requires shape { leaf.old.shape ≡ Shapes.Segments }
    requires room { length values.now ≤ leaf.old.numbers.spare + length leaf.old.numbers.items }
    ensures shape { leaf.new.shape ≡ Shapes.Segments }
    ensures numbers { leaf.new.numbers.items ≡ values.now }
    ensures room { leaf.new.numbers.spare + length leaf.new.numbers.items
        ≡ leaf.old.numbers.spare + length leaf.old.numbers.items }
{
    leaf.numbers.clear();
    for k in 0..values.len() {
        leaf.numbers.push(u128::from(values[k]));
    }
}

/// Makes the leaf that of each segment's greatest value over the node's completions, and gives their sum.
fn value_leaf(
    bounds: &mut Bounds,
    p: &Problem,
    node: &Node,
    values: &mut [u64],
    leaf: &mut Line,
) -> u128
    requires fits { Fits p.now bounds.old }
    requires node { length node.now ≡ product_count p.now }
    requires each { length values.old ≡ length p.now.segments }
    requires shape { leaf.old.shape ≡ Shapes.Segments }
    requires room { length p.now.segments ≤ leaf.old.numbers.spare + length leaf.old.numbers.items }

    ensures values { AreGreatestValues p.now node.now leaf.new.numbers.items }
    ensures sum { result ≡ segments_bound leaf.new.numbers.items }
    ensures shape { leaf.new.shape ≡ Shapes.Segments }

    // What is kept for the next node.
    ensures same { bounds.new ≡ bounds.old }
    ensures each { length values.new ≡ length values.old }
    ensures room { leaf.new.numbers.spare + length leaf.new.numbers.items
        ≡ leaf.old.numbers.spare + length leaf.old.numbers.items }
{
    bounds.bounds(p, node, values);
    refill(values, leaf);
    sum_of(values)
}

/// An empty line of segments, with room for so many numbers.
fn segments_line(alloc: Global, most: usize) -> Result<Line, NoMemory>
    ensures shape { IfOk result (λ l. l.shape ≡ Shapes.Segments) }
    ensures room { IfOk result (λ l. most ≤ l.numbers.spare + length l.numbers.items) }
{
    let mut numbers = Wide::new(alloc);
    numbers.reserve(most)?;
    Ok(Line {
        shape: Shape::Segments,
        numbers,
    })
}

impl<'a> MixedRule<'a> {
    /// The rule of a problem and its best assortment.
    pub(crate) fn new(
        alloc: Global,
        problem: &'a Problem,
        best: &'a Assortment,
    ) -> Result<MixedRule<'a>, NoMemory>
        requires model { problem.now.model ≡ Mixed }
        requires best { IsBest problem.now best.now }
        ensures problem { IfOk result (λ rule. rule.problem ≡ problem.now) }
        ensures best { IfOk result (λ rule. rule.best ≡ best.now) }
    {
        let segments = problem.segments().len();
        Ok(MixedRule {
            problem,
            best,
            value: mixed_value(problem, best),
            bounds: Bounds::prepare(alloc, problem)?,
            values: vec![in alloc; 0; segments]?,
            clash: bare(alloc, Shape::Clash),
            segments: segments_line(alloc, segments)?,
        })
    }
}

impl<'a> TreeRule for MixedRule<'a> {
    ghost use Rattle.offer_model.specs.Branching.{IsDearestOpen};
    ghost use Rattle.offer_model.specs.Problems.{product_count as count_of};
    ghost use Rattle.proof_lines.specs.Writing.{mixed_rule};
    ghost use Rattle.proof_tree.specs.SearchRules.{SearchLeaf};

    ghost products = { λ r. count_of r.problem };

    ghost LeafOf = { λ r node l. SearchLeaf r.problem r.best (mixed_rule r.problem) node l };

    ghost BranchesOn = { λ r node i. IsDearestOpen r.problem node i };

    fn leaf(&mut self, node: &Node, _depth: usize, text: &mut Bytes) -> bool {
        if clashes(self.problem, node) {
            print_line(&self.clash, text);
            return true;
        }
        let sum = value_leaf(
            &mut self.bounds,
            self.problem,
            node,
            &mut self.values,
            &mut self.segments,
        );
        if !sum_closes(sum, self.value, self.best, node) {
            return false;
        }
        print_line(&self.segments, text);
        true
    }

    fn branch(&self, node: &Node, _depth: usize) -> usize {
        match self.bounds.dearest_open(self.problem, node) {
            Some(i) => i,
            None => unreachable!(),
        }
    }
}

//! The rule of certificates for limits of several kinds: a search that tries multipliers that are all 0.
ghost use Rattle.std.specs.Prelude.{◌≡◌, ◌≢◌, ℕ, ◌<◌, ◌≤◌, ◌↔◌, length, IfOk, IfSome, IfNone, IsTrue, Some};
ghost use Rattle.offer_model.specs.Best.{IsBest};
ghost use Rattle.offer_model.specs.Branching.{IsFirstOpen};
ghost use Rattle.offer_model.specs.Nodes.{mark_at};
ghost use Rattle.offer_model.specs.declared.node.Mark.TheVariants.{Open};
ghost use Rattle.offer_model.specs.Ranges.{gain_bound, weight_bound};
ghost use Rattle.offer_model.specs.Validity.{IsRatioModel};
ghost use Rattle.offer_model.specs.Prices.{prices_at};
ghost use Rattle.offer_model.specs.Problems.{product_count};
ghost use Rattle.offer_model.specs.LeafBounds.{is_priced};
ghost use Rattle.proof_lines.specs.Closing.{own_prices, BoundCloses, Closes};
ghost use Rattle.proof_lines.specs.declared.line.Shape.TheVariants as Shapes;
ghost use Rattle.proof_write.specs.ZeroRules.{zeros_of};

use crate::header::bare;
use crate::leaves::weights_of;
use limit_rules::{clashes, comes_after};
use linear_weights::Weights;
use multiplier_bound::Multipliers;
use offer_model::{Assortment, Bytes, Fraction, Limit, Mark, NoMemory, Node, Problem, Wide};
use proof_lines::{Line, Shape, print_line};
use proof_tree::TreeRule;
use std::alloc::Global;
use std::marker::Model;

/// At each node `x` where it clashes; else `m` with all numbers 0, where that closes it; else a branch on the first Open
/// product. It holds the two leaves, and the prices under them at what the best assortment earns.
#[derive(Drop)]
pub(crate) struct ZeroRule<'a> {
    problem: &'a Problem,
    best: &'a Assortment,
    clash: Line,
    zeros: Line,
    prices: Weights,
}

impl<'a> Model for ZeroRule<'a> {
    ghost use Rattle.proof_write.specs.Searches.{SearchData};
    ghost use Rattle.proof_write.specs.ZeroRules.{IsZeroRule};

    ghost Value = { SearchData };

    ghost view = { λ r. record { problem = r.problem.now; best = r.best.now } };

    ghost invariant = { λ r. IsZeroRule r.problem.now r.best.now r.clash r.zeros r.prices };
}

/// Whether the limit has a multiplier.
fn has_multiplier(limit: Limit) -> bool
    ensures { result ≡ is_priced limit }
{
    !matches!(limit, Limit::Ladder(_))
}

/// A 0 for each limit that has a multiplier.
fn zeros_of(alloc: Global, p: &Problem) -> Result<Wide, NoMemory>
    ensures { IfOk result (λ zeros. zeros.items ≡ zeros_of p.now) }
{
    let limits = p.limits();
    let mut zeros = Wide::new(alloc);
    zeros.reserve(limits.len())?;
    for k in 0..limits.len() {
        let limit = *limits.get(k);
        if has_multiplier(limit) {
            zeros.push(0);
        }
    }
    Ok(zeros)
}

/// Whether a bound closes the node.
fn bound_closes(bound: i128, x: &Assortment, node: &Node) -> bool
    requires { length x.now ≡ length node.now }
    ensures { IsTrue result ↔ BoundCloses x.now node.now (Some bound) }
{
    if bound != 0 {
        return bound < 0;
    }
    comes_after(node, x)
}

/// The first Open product.
fn first_open(node: &Node) -> Option<usize>
    ensures some { IfSome result (λ i. IsFirstOpen node.now i) }
    ensures none { IfNone result ((k : ℕ) → k < length node.now → mark_at node.now k ≢ Open) }
{
    for i in 0..node.len() {
        if node.mark(i) == Mark::Open {
            return Some(i);
        }
    }
    None
}

impl<'a> ZeroRule<'a> {
    /// The rule of a problem and its best assortment, which earns this.
    pub(crate) fn new(
        alloc: Global,
        problem: &'a Problem,
        best: &'a Assortment,
        earned: &Fraction,
    ) -> Result<ZeroRule<'a>, NoMemory>
        requires model { IsRatioModel problem.now.model }
        requires best { IsBest problem.now best.now }
        requires num { earned.now.num < gain_bound }
        requires den { (1 ≤ earned.now.den) × (earned.now.den < weight_bound) }
        requires prices { own_prices problem.now best.now ≡ prices_at problem.now earned.now.num earned.now.den }
        ensures problem { IfOk result (λ rule. rule.problem ≡ problem.now) }
        ensures best { IfOk result (λ rule. rule.best ≡ best.now) }
    {
        let n = problem.products().len();
        let weights = weights_of(alloc, problem, earned)?;
        let numbers = zeros_of(alloc, problem)?;
        let mut prices = Weights::new(alloc, n)?;
        Multipliers::new(alloc, problem)?.relax(problem, &weights, &numbers, &mut prices);
        Ok(ZeroRule {
            problem,
            best,
            clash: bare(alloc, Shape::Clash),
            zeros: Line {
                shape: Shape::Multipliers,
                numbers,
            },
            prices,
        })
    }

    /// Whether multipliers that are all 0 close the node.
    fn closes(&self, node: &Node) -> bool
        requires { length node.now ≡ product_count self.now.problem }
        ensures { IsTrue result ↔ Closes self.now.problem self.now.best node.now Shapes.Multipliers (zeros_of self.now.problem) }
    {
        let bound = self.prices.greatest(self.problem, node);
        bound_closes(bound, self.best, node)
    }
}

impl<'a> TreeRule for ZeroRule<'a> {
    ghost use Rattle.offer_model.specs.Branching.{IsFirstOpen};
    ghost use Rattle.offer_model.specs.Problems.{product_count as count_of};
    ghost use Rattle.proof_lines.specs.Writing.{ratio_rule};
    ghost use Rattle.proof_tree.specs.SearchRules.{SearchLeaf};

    ghost products = { λ r. count_of r.problem };

    ghost LeafOf = { λ r node l. SearchLeaf r.problem r.best (ratio_rule r.problem) node l };

    ghost BranchesOn = { λ _ node i. IsFirstOpen node i };

    fn leaf(&mut self, node: &Node, _depth: usize, text: &mut Bytes) -> bool {
        if clashes(self.problem, node) {
            print_line(&self.clash, text);
            return true;
        }
        if self.closes(node) {
            print_line(&self.zeros, text);
            return true;
        }
        false
    }

    fn branch(&self, node: &Node, _depth: usize) -> usize {
        let _ = &self.zeros;
        match first_open(node) {
            Some(i) => i,
            None => unreachable!(),
        }
    }
}

//! The Open products that weigh more than 0, by weight.
ghost use Rattle.std.specs.Prelude.{◌≡◌, ◌+◌, ◌<◌, ◌≤◌, length, vec_capacity};
ghost use Rattle.offer_model.specs.Problems.{product_count};
ghost use Rattle.linear_step.specs.Weights.{AreWeights, weight_at};
ghost use Rattle.rank_step.specs.Candidates.{Collects, AreCandidates};

use linear_step::Weights;
use offer_model::{Mark, Node, Problem};

/// An Open product and its weight, which is above 0.
#[derive(Clone, Copy)]
pub struct Candidate {
    pub weight: u128,
    pub product: usize,
}

/// Puts product `i` last, if it is a candidate.
fn collect_one(p: &Problem, weights: &Weights, node: &Node, i: usize, list: &mut Vec<Candidate>)
    requires weights { AreWeights p.now weights.now }
    requires node { length node.now ≡ product_count p.now }
    requires product { i < product_count p.now }
    requires room { length list.old.items < vec_capacity list.old }
    requires before { Collects p.now node.now (weight_at weights.now) i list.old.items }
    ensures candidates { Collects p.now node.now (weight_at weights.now) (i + 1) list.new.items }
    ensures more { length list.new.items ≤ length list.old.items + 1 }
    ensures room { vec_capacity list.new ≡ vec_capacity list.old }
{
    if node.mark(i) != Mark::Open {
        return;
    }
    let weight = weights.get(i);
    if weight > 0 {
        list.push_reserved(Candidate {
            weight: weight as u128,
            product: i,
        });
    }
}

/// All candidates, by rising weight.
pub fn collect(p: &Problem, weights: &Weights, node: &Node, list: &mut Vec<Candidate>)
    requires weights { AreWeights p.now weights.now }
    requires node { length node.now ≡ product_count p.now }
    requires room { product_count p.now ≤ vec_capacity list.old }
    ensures candidates { AreCandidates p.now node.now (weight_at weights.now) list.new.items }
    ensures room { vec_capacity list.new ≡ vec_capacity list.old }
{
    list.clear();
    for i in 0..node.len() {
        collect_one(p, weights, node, i, list);
    }
    list.sort_unstable_by_key(|c| c.weight);
}

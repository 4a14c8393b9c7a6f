//! The bound of a node at prices, by the best chains of limited ladders.
ghost use Rattle.std.specs.Prelude.{◌≡◌, ℕ, ◌<◌, ◌≤◌, ◌^◌, true, not, ◌||◌, cond, length, pos, ◌+ℤ◌, ◌≤ℤ◌, slice_index_or};
ghost use Rattle.offer_model.specs.Problems.{product_count};
ghost use Rattle.offer_model.specs.Prices.{int_sum_below};
ghost use Rattle.offer_model.specs.LeafBounds.{most_beside};
ghost use Rattle.offer_model.specs.Nodes.{mark_at, is_in};
ghost use Rattle.linear_weights.specs.Weights.{IsWithin, weight_at, prices_of};
ghost use Rattle.several_step.specs.Chains.{rung_at, stands, all_below, is_usable, chain_of, ending_with, flag_at, chains_bound};
ghost use Rattle.several_step.specs.ChainFits.{AreInside, HasPrices, BesideFits, IsList, FitRungs};

use crate::rungs::{Rung, stands};
use linear_weights::{Weights, plus};
use offer_model::{Assortment, Mark, Node, Problem};

/// The sum of two numbers that are far within 128 bits.
fn add(a: i128, b: i128) -> i128
    requires a { IsWithin (2 ^ 126) a }
    requires b { IsWithin (2 ^ 126) b }
    ensures { result ≡ a +ℤ b }
{
    a + b
}

/// Whether a rung with this mark leaves another one usable.
fn leaves(mark: Mark, stand: bool) -> bool
    ensures { result ≡ (not (is_in mark) || stand) }
{
    mark != Mark::In || stand
}

/// Whether rung `k` may stand beside each one that is In.
fn stands_beside(node: &Node, rungs: &[Rung], k: usize) -> bool
    requires inside { AreInside (length node.now) rungs.now }
    requires rung { k < length rungs.now }
    ensures { result ≡ all_below (length rungs.now)
        (λ r. not (is_in (mark_at node.now (rung_at rungs.now r).at)) || stands (rung_at rungs.now r) (rung_at rungs.now k)) }
{
    for r in 0..rungs.len() {
        if !leaves(node.mark(rungs[r].at), stands(rungs[r], rungs[k])) {
            return false;
        }
    }
    true
}

/// Whether rung `k` is Open, weighs more than 0, and may stand beside each one that is In.
fn is_usable(node: &Node, list: &Weights, rungs: &[Rung], k: usize) -> bool
    requires inside { AreInside (length node.now) rungs.now }
    requires each { length list.now.items ≡ length node.now }
    requires rung { k < length rungs.now }
    ensures { result ≡ is_usable node.now (weight_at list.now) rungs.now k }
{
    let at = rungs[k].at;
    node.mark(at) == Mark::Open && list.get(at) > 0 && stands_beside(node, rungs, k)
}

/// What a chain brings at most that ends with rung `q`, where rung `k` may stand beside it; else nothing.
fn end_before(rungs: &[Rung], ends: &[i128], q: usize, k: usize) -> i128
    requires rung { k < length rungs.now }
    requires before { q < k }
    requires room { k ≤ length ends.now }
    ensures { result ≡ cond (stands (rung_at rungs.now q) (rung_at rungs.now k)) (slice_index_or ends.now q (pos 0)) (pos 0) }
{
    if stands(rungs[q], rungs[k]) {
        ends[q]
    } else {
        0
    }
}

/// What a chain brings at most that ends with a rung before `k` beside which rung `k` may stand.
fn best_before(node: &Node, list: &Weights, rungs: &[Rung], ends: &[i128], k: usize) -> i128
    requires rung { k < length rungs.now }
    requires room { k ≤ length ends.now }
    requires ends { (q : ℕ) → q < k → slice_index_or ends.now q (pos 0) ≡ ending_with node.now (weight_at list.now) rungs.now q }
    ensures { result ≡ chain_of node.now (weight_at list.now) rungs.now k (λ q. stands (rung_at rungs.now q) (rung_at rungs.now k)) }
{
    let mut best = 0i128;
    for q in 0..k {
        best = best.max(end_before(rungs, ends, q, k));
    }
    best
}

/// What a chain brings at most that ends with rung `k`, from what those bring that end before it.
fn ending(node: &Node, list: &Weights, rungs: &[Rung], ends: &[i128], k: usize) -> i128
    requires inside { AreInside (length node.now) rungs.now }
    requires each { length list.now.items ≡ length node.now }
    requires prices { HasPrices (weight_at list.now) rungs.now }
    requires rung { k < length rungs.now }
    requires room { k ≤ length ends.now }
    requires ends { (q : ℕ) → q < k → slice_index_or ends.now q (pos 0) ≡ ending_with node.now (weight_at list.now) rungs.now q }
    ensures { result ≡ ending_with node.now (weight_at list.now) rungs.now k }
{
    if !is_usable(node, list, rungs, k) {
        return 0;
    }
    let before = best_before(node, list, rungs, ends, k);
    add(list.get(rungs[k].at), before)
}

/// The best chain of all rungs. `ends` becomes what a chain brings at most that ends with each.
fn best_chain(node: &Node, list: &Weights, rungs: &[Rung], ends: &mut [i128]) -> i128
    requires inside { AreInside (length node.now) rungs.now }
    requires each { length list.now.items ≡ length node.now }
    requires prices { HasPrices (weight_at list.now) rungs.now }
    requires room { length rungs.now ≤ length ends.old }
    ensures best { result ≡ chain_of node.now (weight_at list.now) rungs.now (length rungs.now) (λ q. true) }
    ensures room { length ends.new ≡ length ends.old }
{
    let mut best = 0i128;
    for k in 0..rungs.len() {
        let end = ending(node, list, rungs, ends, k);
        ends[k] = end;
        best = best.max(end);
    }
    best
}

/// What a product adds at most beside the ladders.
fn most_beside(mark: Mark, limited: bool, price: i128) -> i128
    ensures { result ≡ most_beside mark limited price }
{
    match mark {
        Mark::In => price,
        Mark::Out => 0,
        Mark::Open => { if limited || price <= 0 { 0 } else { price } }
    }
}

/// What product `i` adds at most beside the ladders.
fn term(node: &Node, list: &Weights, limited: &[bool], i: usize) -> i128
    requires node { i < length node.now }
    requires each { length list.now.items ≡ length node.now }
    requires limited { length limited.now ≡ length node.now }
    ensures { result ≡ most_beside (mark_at node.now i) (flag_at limited.now i) (weight_at list.now i) }
{
    most_beside(node.mark(i), limited[i], list.get(i))
}

/// The constant, what is In, and the positive prices of what is Open on no limited ladder.
fn beside(p: &Problem, node: &Node, list: &Weights, limited: &[bool]) -> i128
    requires node { length node.now ≡ product_count p.now }
    requires each { length list.now.items ≡ product_count p.now }
    requires limited { length limited.now ≡ product_count p.now }
    requires fits { BesideFits p.now node.now (prices_of list.now) limited.now }
    ensures { result ≡ list.now.constant +ℤ int_sum_below (product_count p.now)
        (λ i. most_beside (mark_at node.now i) (flag_at limited.now i) (weight_at list.now i)) }
{
    let mut sum = list.constant();
    for i in 0..p.products().len() {
        sum = plus(sum, term(node, list, limited, i));
    }
    sum
}

/// The bound of the node at these prices: no completion that keeps to ladders is worth more. `ends` is room for a number a rung.
pub fn bound_by_chains(
    p: &Problem,
    node: &Node,
    list: &Weights,
    rungs: &[Rung],
    limited: &[bool],
    ends: &mut [i128],
) -> i128
    requires node { length node.now ≡ product_count p.now }
    requires list { IsList p.now list.now }
    requires rungs { FitRungs p.now rungs.now limited.now }
    requires room { length ends.old ≡ product_count p.now }
    ensures bound { result ≡ chains_bound p.now node.now (prices_of list.now) rungs.now limited.now }
    ensures room { length ends.new ≡ length ends.old }
{
    let chain = best_chain(node, list, rungs, ends);
    add(beside(p, node, list, limited), chain)
}

/// Offers what the bound was taken from: what is In, what is Open beside the ladders at a price above 0, and the best chain that
/// `ends` says. Nothing is promised of it.
pub fn take_greatest(
    node: &Node,
    list: &Weights,
    rungs: &[Rung],
    limited: &[bool],
    ends: &[i128],
    taken: &mut Assortment,
)
    requires each { length list.now.items ≡ length node.now }
    requires inside { AreInside (length node.now) rungs.now }
    requires limited { length limited.now ≡ length node.now }
    requires room { length rungs.now ≤ length ends.now }
    requires taken { length taken.old ≡ length node.now }
    ensures { length taken.new ≡ length taken.old }
{
    let mut missing = 0i128;
    for k in 0..rungs.len() {
        missing = missing.max(ends[k]);
    }
    for i in 0..node.len() {
        taken.set(
            i,
            most_beside(node.mark(i), limited[i], list.get(i)) > 0 || node.mark(i) == Mark::In,
        );
    }
    take_chain(list, rungs, ends, missing, taken);
}

/// Whether the rung may stand beside the one that comes after it in a chain.
fn goes_before(rung: Rung, last: Option<Rung>) -> bool {
    match last {
        Some(last) => stands(rung, last),
        None => true,
    }
}

/// Offers a chain that brings what is missing, from its last rung back.
fn take_chain(list: &Weights, rungs: &[Rung], ends: &[i128], missing: i128, taken: &mut Assortment)
    requires each { length list.now.items ≡ length taken.old }
    requires inside { AreInside (length taken.old) rungs.now }
    requires room { length rungs.now ≤ length ends.now }
    ensures { length taken.new ≡ length taken.old }
{
    let mut missing = missing;
    let mut last = None;
    for k in (0..rungs.len()).rev() {
        let rung = rungs[k];
        if missing > 0 && ends[k] == missing && goes_before(rung, last) {
            taken.set(rung.at, true);
            missing = missing.wrapping_sub(list.get(rung.at));
            last = Some(rung);
        }
    }
}

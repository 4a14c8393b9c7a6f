//! Rounding: an assortment that keeps to the limits, product by product from a list of relaxed prices. Nothing is promised of it
//! but its length; whoever takes it tests it.
ghost use Rattle.std.specs.Prelude.{◌≡◌, ◌+◌, ◌*◌, ◌<◌, ◌≤◌, ◌^◌, [], length, vec_len, vec_capacity, IfOk};
ghost use Rattle.std.specs.List.{All};
ghost use Rattle.offer_model.specs.Problems.{product_count};
ghost use Rattle.offer_model.specs.Validity.{IsProblem, IsInRange};
ghost use Rattle.linear_weights.specs.Weights.{AreWeights};
ghost use Rattle.several_step.specs.ChainFits.{AreInside, AreBelow};

use crate::branch_order::Ranked;
use crate::rungs::{Rung, stands};
use linear_weights::Weights;
use multiplier_bound::{allowance, units};
use offer_model::{Assortment, Limit, Limits, Mark, NoMemory, Node, Problem};
use std::alloc::Global;
use std::cmp::Reverse;
use std::marker::Model;

/// How often all products are gone through: what another one requires may stand only after the first time.
const TIMES: usize = 2;

/// What raises a product that the bound took above all others, 2^120: no price is as great.
const TAKEN: i128 = 1_329_227_995_784_915_872_903_807_060_280_344_576;

/// Room for rounding: what is offered, the units of each limit that this uses, the order of products, and those that come together.
#[derive(Drop)]
pub struct Rounding {
    offered: Assortment,
    used: Vec<u128>,
    order: Vec<Ranked>,
    members: Vec<usize>,
}

impl Model for Rounding {
    ghost use Rattle.std.specs.Prelude.{◌≡◌, ◌≤◌, length, vec_capacity};
    ghost use Rattle.several_step.specs.ChainFits.{RoundingData};

    ghost Value = { RoundingData };

    ghost view = { λ r. record { products = length r.offered; limits = length r.used.items } };

    ghost invariant = { λ r. (length r.offered ≤ vec_capacity r.order) × (length r.offered ≤ vec_capacity r.members) };
}

/// Puts last what a product requires directly and isn't there yet.
fn push_needs(p: &Problem, from: usize, offered: &Assortment, members: &mut Vec<usize>)
    requires valid { IsProblem p.now }
    requires long { length offered.now ≡ product_count p.now }
    requires below { AreBelow (product_count p.now) members.old.items }
    requires room { product_count p.now ≤ vec_capacity members.old }
    ensures below { AreBelow (product_count p.now) members.new.items }
    ensures room { vec_capacity members.new ≡ vec_capacity members.old }
{
    for k in 0..p.limits().len() {
        let Limit::Requires(a, b) = *p.limits().get(k) else {
            continue;
        };
        if a == from
            && b < offered.len()
            && !offered.offers(b)
            && !members.contains(&b)
            && members.len() < offered.len()
        {
            members.push_reserved(b);
        }
    }
}

/// The product and all that it requires and isn't offered yet.
fn gather(p: &Problem, i: usize, offered: &Assortment, members: &mut Vec<usize>)
    requires valid { IsProblem p.now }
    requires product { i < product_count p.now }
    requires long { length offered.now ≡ product_count p.now }
    requires room { product_count p.now ≤ vec_capacity members.old }
    ensures below { AreBelow (product_count p.now) members.new.items }
    ensures room { vec_capacity members.new ≡ vec_capacity members.old }
{
    members.clear();
    members.push_reserved(i);
    for j in 0..offered.len() {
        if j >= members.len() {
            break;
        }
        push_needs(p, members[j], offered, members);
    }
}

/// The units of the limit that the products use together.
fn units_of(p: &Problem, limit: Limit, members: &[usize]) -> u128
    requires below { AreBelow (product_count p.now) members.now }
{
    let mut sum = 0u128;
    for m in members {
        sum = sum.saturating_add(units(p, limit, *m));
    }
    sum
}

/// Whether the limit has room for the products beside what is used.
fn has_room(p: &Problem, limit: Limit, used: u128, members: &[usize]) -> bool
    requires below { AreBelow (product_count p.now) members.now }
    requires range { IsInRange limit }
{
    match limit {
        Limit::Requires(_, _) | Limit::Ladder(_) => true,
        _ => used.saturating_add(units_of(p, limit, members)) <= allowance(limit),
    }
}

/// Whether each limit has room for the products beside what is used.
fn have_room(p: &Problem, used: &[u128], members: &[usize]) -> bool
    requires valid { IsProblem p.now }
    requires each { length used.now ≡ length p.now.limits }
    requires below { AreBelow (product_count p.now) members.now }
{
    for k in 0..used.len() {
        if !has_room(p, *p.limits().get(k), used[k], members) {
            return false;
        }
    }
    true
}

/// Whether the rung may stand beside each one that is offered.
fn stands_beside_offered(rungs: &[Rung], rung: Rung, offered: &Assortment) -> bool
    requires inside { AreInside (length offered.now) rungs.now }
{
    for r in rungs {
        if offered.offers(r.at) && !stands(*r, rung) {
            return false;
        }
    }
    true
}

/// Whether none of the products is Out or may not stand on its ladder.
fn may_join(
    p: &Problem,
    node: &Node,
    rungs: &[Rung],
    limited: &[bool],
    offered: &Assortment,
    members: &[usize],
) -> bool
    requires long { length offered.now ≡ product_count p.now }
    requires node { length node.now ≡ product_count p.now }
    requires limited { length limited.now ≡ product_count p.now }
    requires inside { AreInside (product_count p.now) rungs.now }
    requires below { AreBelow (product_count p.now) members.now }
{
    for m in members {
        let rung = Rung {
            at: *m,
            product: *p.products().get(*m),
        };
        if node.mark(*m) == Mark::Out
            || limited[*m] && !stands_beside_offered(rungs, rung, offered)
        {
            return false;
        }
    }
    true
}

/// What the products weigh together.
fn weight_of(weights: &Weights, members: &[usize]) -> i128
    requires { AreBelow (length weights.now.items) members.now }
{
    let mut sum = 0i128;
    for m in members {
        sum = sum.saturating_add(weights.get(*m));
    }
    sum
}

/// Offers the products, or takes them out.
fn set_each(offered: &mut Assortment, members: &[usize], value: bool)
    requires { AreBelow (length offered.old) members.now }
    ensures { length offered.new ≡ length offered.old }
{
    for m in members {
        offered.set(*m, value);
    }
}

/// Offers nothing.
fn clear(offered: &mut Assortment)
    ensures { length offered.new ≡ length offered.old }
{
    for i in 0..offered.len() {
        offered.set(i, false);
    }
}

/// Counts what the products use of each limit.
fn count_each(p: &Problem, used: &mut [u128], members: &[usize])
    requires each { length used.old ≡ length p.now.limits }
    requires below { AreBelow (product_count p.now) members.now }
    ensures { length used.new ≡ length used.old }
{
    for k in 0..used.len() {
        used[k] = used[k].saturating_add(units_of(p, *p.limits().get(k), members));
    }
}

/// The Open products: first those that the bound took, then by falling price.
fn rank_open(node: &Node, list: &Weights, taken: &Assortment, order: &mut Vec<Ranked>)
    requires each { length list.now.items ≡ length node.now }
    requires taken { length taken.now ≡ length node.now }
    requires room { length node.now ≤ vec_capacity order.old }
    ensures { vec_capacity order.new ≡ vec_capacity order.old }
{
    order.clear();
    for i in 0..node.len() {
        let priority = if taken.offers(i) {
            list.get(i).saturating_add(TAKEN)
        } else {
            list.get(i)
        };
        if node.mark(i) == Mark::Open {
            order.push_reserved(Ranked {
                priority,
                product: i,
            });
        }
    }
    order.sort_unstable_by_key(|r| Reverse(r.priority));
}

impl Rounding {
    /// Room for the problem. It takes all memory that is needed.
    pub fn new(alloc: Global, p: &Problem) -> Result<Rounding, NoMemory>
        ensures { IfOk result (λ r. (r.products ≡ product_count p.now) × (r.limits ≡ length p.now.limits)) }
    {
        let count = p.products().len();
        Ok(Rounding {
            offered: Assortment::empty(alloc, count)?,
            used: vec![in alloc; 0u128; p.limits().len()]?,
            order: Vec::with_capacity(alloc, count)?,
            members: Vec::with_capacity(alloc, count)?,
        })
    }

    /// The assortment.
    pub fn offered(&self) -> &Assortment
        ensures { length result.now ≡ self.now.products }
    {
        &self.offered
    }

    /// The product at a place of the order.
    fn ranked(&self, k: usize) -> Option<usize> {
        if k < self.order.len() {
            Some(self.order[k].product)
        } else {
            None
        }
    }

    /// Offers product `i` and what it requires, with no regard to limits.
    fn add(&mut self, p: &Problem, i: usize)
        requires valid { IsProblem p.now }
        requires product { i < product_count p.now }
        requires fits { self.old.products ≡ product_count p.now }
        requires limits { self.old.limits ≡ length p.now.limits }
        ensures { self.new ≡ self.old }
    {
        gather(p, i, &self.offered, &mut self.members);
        set_each(&mut self.offered, &self.members, true);
        count_each(p, &mut self.used, &self.members);
    }

    /// Offers product `i` and what it requires, where that fits and weighs more than 0.
    fn try_product(
        &mut self,
        p: &Problem,
        node: &Node,
        weights: &Weights,
        rungs: &[Rung],
        limited: &[bool],
        i: usize,
    )
        requires valid { IsProblem p.now }
        requires product { i < product_count p.now }
        requires node { length node.now ≡ product_count p.now }
        requires each { length weights.now.items ≡ product_count p.now }
        requires limited { length limited.now ≡ product_count p.now }
        requires inside { AreInside (product_count p.now) rungs.now }
        requires fits { self.old.products ≡ product_count p.now }
        requires limits { self.old.limits ≡ length p.now.limits }
        ensures { self.new ≡ self.old }
    {
        gather(p, i, &self.offered, &mut self.members);
        if weight_of(weights, &self.members) <= 0 || !have_room(p, &self.used, &self.members) {
            return;
        }
        set_each(&mut self.offered, &self.members, true);
        if may_join(p, node, rungs, limited, &self.offered, &self.members) {
            count_each(p, &mut self.used, &self.members);
        } else {
            set_each(&mut self.offered, &self.members, false);
        }
    }

    /// Offers what is In at the node and what that requires, and nothing else.
    fn start(&mut self, p: &Problem, node: &Node)
        requires valid { IsProblem p.now }
        requires node { length node.now ≡ product_count p.now }
        requires fits { self.old.products ≡ product_count p.now }
        requires limits { self.old.limits ≡ length p.now.limits }
        ensures { self.new ≡ self.old }
    {
        self.used.fill(0);
        clear(&mut self.offered);
        for i in 0..node.len() {
            if node.mark(i) == Mark::In && !self.offered.offers(i) {
                self.add(p, i);
            }
        }
    }

    /// Makes an assortment of what the bound took and of the list's prices.
    pub fn round(
        &mut self,
        p: &Problem,
        node: &Node,
        weights: &Weights,
        list: &Weights,
        taken: &Assortment,
        rungs: &[Rung],
        limited: &[bool],
    )
        requires valid { IsProblem p.now }
        requires node { length node.now ≡ product_count p.now }
        requires weights { length weights.now.items ≡ product_count p.now }
        requires list { length list.now.items ≡ product_count p.now }
        requires taken { length taken.now ≡ product_count p.now }
        requires limited { length limited.now ≡ product_count p.now }
        requires inside { AreInside (product_count p.now) rungs.now }
        requires fits { self.old.products ≡ product_count p.now }
        requires limits { self.old.limits ≡ length p.now.limits }
        ensures { self.new ≡ self.old }
    {
        self.start(p, node);
        rank_open(node, list, taken, &mut self.order);
        let count = self.order.len();
        for k in 0..count * TIMES {
            if let Some(i) = self.ranked(k % count)
                && i < node.len()
                && !self.offered.offers(i)
            {
                self.try_product(p, node, weights, rungs, limited, i);
            }
        }
    }
}

//! A first completion: the best feasible one that was met.
ghost use Rattle.std.specs.Option.{option_copied};
ghost use Rattle.std.specs.Prelude.{Some, None, cond, ◌≡◌, ◌↔◌, length, IfOk, IsTrue};
ghost use Rattle.offer_model.specs.Problems.{product_count};
ghost use Rattle.linear_weights.specs.Weights.{AreWeights};
ghost use Rattle.several_step.specs.Firsts.{IsFirst};

use crate::weights_goal::completes;
use limit_rules::first_broken;
use linear_weights::Weights;
use offer_model::{Assortment, NoMemory, Node, Problem};
use std::alloc::Global;
use std::marker::Model;

/// The feasible completion that weighs most of those that were met, where there is one.
#[derive(Drop)]
pub struct First {
    known: bool,
    offered: Assortment,
    weight: i128,
}

impl Model for First {
    ghost use Rattle.several_step.specs.Firsts.{FirstData};

    ghost Value = { FirstData };

    ghost view = { λ f. record { known = f.known; offered = f.offered } };
}

impl First {
    /// None as yet, of `n` products.
    pub fn new(alloc: Global, n: usize) -> Result<First, NoMemory>
        ensures { IfOk result (λ f. length f.offered ≡ n) }
    {
        Ok(First {
            known: false,
            offered: Assortment::empty(alloc, n)?,
            weight: 0,
        })
    }

    /// Keeps the last one for another node and other weights, where it is a feasible completion there too.
    pub fn start(&mut self, p: &Problem, weights: &Weights, node: &Node)
        requires weights { AreWeights p.now weights.now }
        requires node { length node.now ≡ product_count p.now }
        requires long { length self.old.offered ≡ product_count p.now }
        ensures first { IsFirst p.now node.now self.new }
        ensures long { length self.new.offered ≡ length self.old.offered }
    {
        self.known = first_broken(p, &self.offered).is_none() && completes(node, &self.offered);
        self.weight = weights.worth(p, &self.offered);
    }

    /// Takes an assortment that is a feasible completion and weighs more.
    pub fn meet(&mut self, p: &Problem, weights: &Weights, node: &Node, x: &Assortment)
        requires weights { AreWeights p.now weights.now }
        requires node { length node.now ≡ product_count p.now }
        requires long { length self.old.offered ≡ product_count p.now }
        requires other { length x.now ≡ product_count p.now }
        requires first { IsFirst p.now node.now self.old }
        ensures first { IsFirst p.now node.now self.new }
        ensures long { length self.new.offered ≡ length self.old.offered }
    {
        let weight = weights.worth(p, x);
        if self.known && weight <= self.weight {
            return;
        }
        if first_broken(p, x).is_none() && completes(node, x) {
            self.offered.copy_from(x);
            self.known = true;
            self.weight = weight;
        }
    }

    /// It, where there is one.
    pub fn known(&self) -> Option<&Assortment>
        ensures { option_copied result ≡ cond self.now.known (Some self.now.offered) None }
    {
        if self.known {
            Some(&self.offered)
        } else {
            None
        }
    }

    /// What it weighs, where there is one.
    pub fn weight(&self) -> Option<i128> {
        if self.known { Some(self.weight) } else { None }
    }
}

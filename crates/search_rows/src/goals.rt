//! A goal that counts what it is asked.
ghost use Rattle.std.specs.Prelude.{◌≡◌, ◌≤◌, length};
ghost use Rattle.search_rows.specs.WorkedGoals.{offered_of, left_of, one_unless_out};

use offer_model::{Assortment, Mark, NoMemory, Node};
use std::alloc::Global;
use std::marker::Model;
use std::sync::atomic::{AtomicU64, Ordering};
use tree_search::Goal;

/// Every assortment is feasible, and worth the number of products that it offers, or nothing. It counts the calls of `bound` and
/// `value`; forks share the count.
#[derive(Drop)]
pub struct Counting<'a> {
    pub products: usize,
    pub valued: bool,
    pub calls: &'a AtomicU64,
}

impl<'a> Model for Counting<'a> {
    ghost use Rattle.search_rows.specs.WorkedGoals.{CountingData};

    ghost Value = { CountingData };

    ghost view = { λ g. record { products = g.products; valued = g.valued } };
}

/// How many products are offered.
pub fn offered_of(x: &Assortment) -> usize
    ensures value { result ≡ offered_of (length x.now) x.now }
{
    let mut offered = 0;
    for i in 0..x.len() {
        offered += if x.offers(i) { 1 } else { 0 };
    }
    offered
}

fn one_unless_out(mark: Mark) -> usize
    ensures { result ≡ one_unless_out mark }
{
    match mark {
        Mark::In | Mark::Open => 1,
        Mark::Out => 0,
    }
}

/// How many products aren't Out.
fn left_of(node: &Node) -> usize
    ensures { result ≡ left_of (length node.now) node.now }
{
    let mut left = 0;
    for i in 0..node.len() {
        left += one_unless_out(node.mark(i));
    }
    left
}

impl Goal for Counting<'_> {
    ghost use Rattle.search_rows.specs.WorkedGoals.{counting_rules, counting_lawful};

    ghost rules = { counting_rules };

    fn products(&self) -> usize {
        self.products
    }

    fn value(&self, x: &Assortment) -> i128 {
        self.calls.fetch_add(1, Ordering::SeqCst);
        if self.valued {
            offered_of(x) as i128
        } else {
            0
        }
    }

    fn feasible(&self, _x: &Assortment) -> bool {
        true
    }

    fn clash(&self, _node: &Node) -> bool {
        false
    }

    fn bound(&mut self, node: &Node) -> i128 {
        self.calls.fetch_add(1, Ordering::SeqCst);
        left_of(node) as i128
    }

    fn next(&self, node: &Node) -> Option<usize> {
        node.first_open()
    }

    fn fork(&self, _alloc: Global) -> Result<Self, NoMemory> {
        Ok(Counting {
            products: self.products,
            valued: self.valued,
            calls: self.calls,
        })
    }

    ghost lawful = { counting_lawful };
}

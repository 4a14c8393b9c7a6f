//! The order in which a search divides by products.
ghost use Rattle.std.specs.Prelude.{◌≡◌, ◌≤◌, length, vec_capacity};

use linear_weights::Weights;
use offer_model::{Mark, Node};
use std::cmp::Reverse;

/// A product, and how early it is divided by.
#[derive(Clone, Copy)]
pub struct Ranked {
    pub priority: i128,
    pub product: usize,
}

/// What the root settles comes first, so that a node soon has all of the root's marks; then what is dearest.
fn priority_of(mark: Mark, price: i128) -> i128 {
    match mark {
        Mark::In | Mark::Out => i128::MAX,
        Mark::Open => price,
    }
}

/// The `n` products in the order in which a search below the root divides by them.
pub fn rank(n: usize, root: &Node, list: &Weights, order: &mut Vec<Ranked>)
    requires root { length root.now ≡ n }
    requires each { length list.now.items ≡ n }
    requires room { n ≤ vec_capacity order.old }
    ensures { vec_capacity order.new ≡ vec_capacity order.old }
{
    order.clear();
    for i in 0..n {
        order.push_reserved(Ranked {
            priority: priority_of(root.mark(i), list.get(i)),
            product: i,
        });
    }
    order.sort_unstable_by_key(|r| Reverse(r.priority));
}

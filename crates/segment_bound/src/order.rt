//! The products by falling margin.
ghost use Rattle.std.specs.Prelude.{◌≡◌, ◌<◌, length, IfOk};
ghost use Rattle.std.specs.List.{All};
ghost use Rattle.offer_model.specs.Nodes.{is_in, is_open};
ghost use Rattle.segment_bound.specs.Orders.{IsOrder, first_in};

use offer_model::{Mark, NoMemory, Node, Problem};
use std::alloc::Global;

/// A product and its margin.
#[derive(Clone, Copy)]
pub struct Ranked {
    pub margin: u64,
    pub product: usize,
}

/// The products by falling margin, and of equal margins by place.
pub fn by_margin(alloc: Global, p: &Problem) -> Result<Vec<Ranked>, NoMemory>
    ensures { IfOk result (λ order. IsOrder p.now order.items) }
{
    let mut order = Vec::with_capacity(alloc, p.products().len())?;
    for product in 0..p.products().len() {
        order.push_reserved(Ranked {
            margin: p.products().get(product).margin,
            product,
        });
    }
    order.sort_by_key(|q| u64::MAX - q.margin)?;
    Ok(order)
}

/// Whether the mark is Open.
pub fn is_open(mark: Mark) -> bool
    ensures { result ≡ is_open mark }
{
    match mark {
        Mark::Open => true,
        Mark::In | Mark::Out => false,
    }
}

/// Whether the mark is In.
pub fn is_in(mark: Mark) -> bool
    ensures { result ≡ is_in mark }
{
    match mark {
        Mark::In => true,
        Mark::Open | Mark::Out => false,
    }
}

#[tactic(auto, using(crate::proofs::DearestLemmas::first_here, crate::proofs::DearestLemmas::first_step))]
/// The first product of the order that is Open.
pub fn first_open(order: &[Ranked], node: &Node) -> Option<usize>
    requires inside { All (λ q. q.product < length node.now) order.now }
    ensures { result ≡ first_in node.now order.now }
{
    for q in order {
        if is_open(node.mark(q.product)) {
            return Some(q.product);
        }
    }
    None
}

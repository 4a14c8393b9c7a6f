//! Which products may stand together on a ladder.
ghost use Rattle.std.specs.Prelude.{◌≡◌, ◌<◌, ◌↔◌, IsTrue, length};
ghost use Rattle.offer_model.specs.Assortments.{offers};
ghost use Rattle.offer_model.specs.Problems.{product_count, product_at};
ghost use Rattle.offer_model.specs.Limits.{MayStand, KeepsLadder};
ghost use Rattle.limit_rules.specs.Ladders.{StandsOnLadder, FitsOnLadder};

use crate::choice::Choice;
use offer_model::{Problem, Product};

/// Whether the grades differ and, where the second is the higher, the second price is no lower.
pub fn may_stand(a: &Product, b: &Product) -> bool
    ensures { IsTrue result ↔ MayStand a.now b.now }
{
    if a.grade < b.grade {
        a.price <= b.price
    } else {
        a.grade != b.grade
    }
}

/// Whether product `i` is chosen and stands on the ladder.
fn is_on_ladder<C: Choice>(p: &Problem, x: &C, ladder: u32, i: usize) -> bool
    requires length { length (C.chosen x.now) ≡ product_count p.now }
    requires product { i < product_count p.now }
    ensures { IsTrue result ↔ StandsOnLadder p.now (C.chosen x.now) ladder i }
{
    x.has(i) && p.products().get(i).ladder == ladder
}

/// Whether product `i` may be offered together with each other product that is chosen on the ladder.
fn fits_on_ladder<C: Choice>(p: &Problem, x: &C, ladder: u32, i: usize) -> bool
    requires length { length (C.chosen x.now) ≡ product_count p.now }
    requires product { i < product_count p.now }
    ensures { IsTrue result ↔ FitsOnLadder p.now (C.chosen x.now) ladder i }
{
    for j in 0..p.products().len() {
        if j != i
            && is_on_ladder(p, x, ladder, j)
            && !may_stand(p.products().get(i), p.products().get(j))
        {
            return false;
        }
    }
    true
}

/// Whether any two chosen products of the ladder may be offered together.
pub fn keeps_ladder<C: Choice>(p: &Problem, x: &C, ladder: u32) -> bool
    requires { length (C.chosen x.now) ≡ product_count p.now }
    ensures { IsTrue result ↔ KeepsLadder p.now (C.chosen x.now) ladder }
{
    for i in 0..p.products().len() {
        if is_on_ladder(p, x, ladder, i) && !fits_on_ladder(p, x, ladder, i) {
            return false;
        }
    }
    true
}

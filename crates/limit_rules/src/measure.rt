//! What caps and shelves count.
ghost use Rattle.std.specs.Prelude.{◌≡◌, ◌<◌, ◌≤◌, length};
ghost use Rattle.offer_model.specs.Problems.{product_count};
ghost use Rattle.offer_model.specs.Revenue.{sum_offered};
ghost use Rattle.limit_rules.specs.Measures.{used_of};

use crate::choice::Choice;
use offer_model::{MOST_COUNT, Problem};

/// What a limit counts of each product.
#[derive(Clone, Copy)]
pub enum Measure {
    /// One for each product.
    Each,
    /// One for each product of the category.
    OfCategory(u32),
    /// The product's space.
    Space,
}

/// What product `i` uses.
fn used(p: &Problem, measure: Measure, i: usize) -> u64
    requires { i < product_count p.now }
    ensures value { result ≡ used_of p.now measure i }
    ensures bound { result ≤ MOST_COUNT }
{
    let product = p.products().get(i);
    match measure {
        Measure::Each => 1,
        Measure::OfCategory(category) => u64::from(product.category == category),
        Measure::Space => product.space,
    }
}

/// What all that is chosen uses.
pub fn used_in_all<C: Choice>(p: &Problem, x: &C, measure: Measure) -> u64
    requires { length (C.chosen x.now) ≡ product_count p.now }
    ensures { result ≡ sum_offered p.now (C.chosen x.now) (used_of p.now measure) }
{
    let mut total = 0u64;
    for i in 0..p.products().len() {
        if x.has(i) {
            total += used(p, measure, i);
        }
    }
    total
}

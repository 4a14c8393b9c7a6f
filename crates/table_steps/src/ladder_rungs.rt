//! The products of a ladder by grade.
ghost use Rattle.std.specs.Prelude.{◌≡◌, ◌<◌, length, IfOk};
ghost use Rattle.offer_model.specs.Problems.{product_at};
ghost use Rattle.table_steps.specs.LadderRungs.{AreRungs};

use limit_rules::ladder_products;
use offer_model::{NoMemory, Problem};
use std::alloc::Global;
use std::marker::Model;

/// The products of one ladder, from the lowest grade up.
#[derive(Drop)]
pub struct Rungs {
    ladder: u32,
    products: Vec<usize>,
}

impl Model for Rungs {
    ghost use Rattle.table_steps.specs.LadderRungs.{RungsData};

    ghost Value = { RungsData };

    ghost view = { λ r. record { ladder = r.ladder; products = r.products.items } };
}

/// The grade of product `i`; 0 past the last.
fn grade_of(p: &Problem, i: usize) -> u64
    ensures { result ≡ (product_at p.now i).grade }
{
    if i < p.products().len() {
        p.products().get(i).grade
    } else {
        0
    }
}

impl Rungs {
    /// All products of a ladder.
    pub fn of(alloc: Global, p: &Problem, ladder: u32) -> Result<Rungs, NoMemory>
        ensures rungs { IfOk result (AreRungs p.now) }
        ensures ladder { IfOk result (λ r. r.ladder ≡ ladder) }
    {
        let mut products = ladder_products(alloc, p, ladder)?;
        products.sort_unstable_by_key(|i| grade_of(p, *i));
        Ok(Rungs { ladder, products })
    }

    /// The products, from the lowest grade up.
    pub fn products(&self) -> &[usize]
        ensures { result.now ≡ self.now.products }
    {
        &self.products
    }
}

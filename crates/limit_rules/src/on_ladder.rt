//! The products of one ladder.
ghost use Rattle.std.specs.Prelude.{IfOk};
ghost use Rattle.offer_model.specs.Problems.{product_count};
ghost use Rattle.limit_rules.specs.LadderProducts.{Collects};

use offer_model::{NoMemory, Problem};
use std::alloc::Global;

#[tactic(auto, using(crate::proofs::LadderLemmas::collects_more, crate::proofs::LadderLemmas::collects_same))]
/// The products of a ladder, in catalogue order.
pub fn ladder_products(alloc: Global, p: &Problem, ladder: u32) -> Result<Vec<usize>, NoMemory>
    ensures { IfOk result (λ list. Collects p.now ladder (product_count p.now) list.items) }
{
    let mut list = Vec::new(alloc);
    for i in 0..p.products().len() {
        if p.products().get(i).ladder == ladder {
            list.push(i)?;
        }
    }
    Ok(list)
}

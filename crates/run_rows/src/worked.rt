//! The worked files of mixed logit: two products, of which the first alone brings as much as both.
ghost use Rattle.std.specs.Prelude.{◌≡◌, IfOk};
ghost use Rattle.offer_model.specs.declared.products.ModelName.TheVariants.{Mixed};

use catalogue::{problem_of, read_products, read_segments};
use offer_model::{Assortment, Limits, ModelName, NoMemory, Problem};
use std::alloc::Global;
use std::process::Abort;

pub(crate) const PRODUCTS: &[u8] = b"name,margin\nA,10\nB,6\n";

pub(crate) const SEGMENTS: &[u8] =
    b"segment,product,size,attraction\nall,,1,1\nall,A,,1\nall,B,,1\n";

/// In units of 1 the first alone brings 10 / 2, and both 16 / 3 rounded down: 5 too, and less offered goes before.
pub(crate) const REPORT: &[u8] = b"model mixed\nproducts 2\noffer A\nset 10\nvalue 5\nunit 1\n";

pub(crate) const PROOF: &[u8] =
    b"assort-proof 1\nmodel mixed\nset 10\nvalue 5\nb 0\ns 5\ns 3\nend\n";

/// The problem of the worked files in units of 1.
pub(crate) fn worked_problem(rt: &impl Abort, alloc: Global) -> Result<Problem, NoMemory>
    ensures { IfOk result (λ p. p.model ≡ Mixed) }
{
    let Ok(catalogue) = read_products(alloc, PRODUCTS, ModelName::Mixed) else {
        panic!(rt; "no catalogue");
    };
    let Ok(segments) = read_segments(alloc, SEGMENTS, &catalogue, 1) else {
        panic!(rt; "no segments");
    };
    let limits = Limits::new(alloc);
    problem_of(
        alloc,
        &catalogue,
        ModelName::Mixed,
        0,
        1,
        &segments,
        &limits,
    )
}

/// Whether of two products the first alone is offered.
pub(crate) fn is_first_alone(x: &Assortment) -> bool {
    x.len() == 2 && x.offers(0) && !x.offers(1)
}

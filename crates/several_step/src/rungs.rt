//! The products on limited ladders, from the lowest grade up.
ghost use Rattle.std.specs.Prelude.{◌≡◌, ◌+◌, ◌<◌, true, [], IfOk, OnOk};
ghost use Rattle.std.specs.List.{Contains};
ghost use Rattle.offer_model.specs.Problems.{product_count};
ghost use Rattle.offer_model.specs.declared.products.Limit.TheVariants as L;
ghost use Rattle.several_step.specs.Chains.{rises, stands, AreRungsBelow, AreRungs};

use offer_model::{Limit, NoMemory, Problem, Product};
use std::alloc::Global;

/// A product on a limited ladder, and its place in the catalogue.
#[derive(Clone, Copy)]
pub struct Rung {
    pub at: usize,
    pub product: Product,
}

/// Whether from the first product to the second the grade rises and the price doesn't fall.
fn rises(a: Product, b: Product) -> bool
    ensures { result ≡ rises a b }
{
    a.grade < b.grade && a.price <= b.price
}

/// Whether two products may be offered together, as far as ladders go.
pub fn stands(a: Rung, b: Rung) -> bool
    ensures { result ≡ stands a b }
{
    a.at == b.at
        || a.product.ladder != b.product.ladder
        || rises(a.product, b.product)
        || rises(b.product, a.product)
}

/// Whether a limit names the ladder.
fn is_limited(p: &Problem, ladder: u32) -> bool
    ensures { result ≡ true → Contains p.now.limits (L.Ladder ladder) }
{
    for k in 0..p.limits().len() {
        if *p.limits().get(k) == Limit::Ladder(ladder) {
            return true;
        }
    }
    false
}

#[tactic(auto, using(crate::proofs::RungLemmas::rungs_more, crate::proofs::RungLemmas::rungs_less))]
/// Puts product `i` last where its ladder is limited, and whether it is.
fn push_rung(
    p: &Problem,
    i: usize,
    rungs: &mut Vec<Rung>,
    limited: &mut Vec<bool>,
) -> Result<(), NoMemory>
    requires product { i < product_count p.now }
    requires below { AreRungsBelow p.now i rungs.old.items limited.old.items }
    ensures { OnOk result (AreRungsBelow p.now (i + 1) rungs.new.items limited.new.items) }
{
    let product = *p.products().get(i);
    if !is_limited(p, product.ladder) {
        limited.push(false)?;
        return Ok(());
    }
    limited.push(true)?;
    rungs.push(Rung { at: i, product })?;
    Ok(())
}

/// The products on limited ladders, in catalogue order. `limited` becomes whether each product is one.
fn list_rungs(alloc: Global, p: &Problem, limited: &mut Vec<bool>) -> Result<Vec<Rung>, NoMemory>
    requires { limited.old.items ≡ [] }
    ensures { IfOk result (λ rungs. AreRungs p.now rungs.items limited.new.items) }
{
    let mut rungs = Vec::new(alloc);
    for i in 0..p.products().len() {
        push_rung(p, i, &mut rungs, limited)?;
    }
    Ok(rungs)
}

/// The products on limited ladders, by ladder, grade and price: the bound is sound in any order, and low in this one.
pub fn collect_rungs(
    alloc: Global,
    p: &Problem,
    limited: &mut Vec<bool>,
) -> Result<Vec<Rung>, NoMemory>
    requires { limited.old.items ≡ [] }
    ensures { IfOk result (λ rungs. AreRungs p.now rungs.items limited.new.items) }
{
    let mut rungs = list_rungs(alloc, p, limited)?;
    rungs.sort_unstable_by_key(|r| (r.product.ladder, r.product.grade, r.product.price));
    Ok(rungs)
}

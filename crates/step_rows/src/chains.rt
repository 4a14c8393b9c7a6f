//! The assortments, vectors and bounds of worked chains, and their certificates.
ghost use Rattle.std.specs.Prelude.{◌≡◌, IfOk};
ghost use Rattle.offer_model.specs.ChainValidity.{IsChain};

use crate::pieces::{SIZES, verdict_by};
use chain_values::solve_chain;
use offer_model::{Arc, Chain, Items, NoMemory};
use proof_check::{Checker, Verdict};
use std::alloc::Global;
use std::process::Abort;
use std::test::Fail;

/// What is wanted of a chain: the assortment, the two vectors and the two bounds.
#[derive(Clone, Copy)]
struct Wanted<'a> {
    set: &'a [bool],
    upper: &'a [u64],
    lower: &'a [u64],
    lo: u64,
    up: u64,
}

fn arc(from: usize, to: usize, parts: u64) -> Arc
    ensures { result ≡ record { from = from; to = to; parts = parts } }
{
    Arc { from, to, parts }
}

fn list_of<X: Copy>(alloc: Global, values: &[X]) -> Result<Items<X>, NoMemory>
    ensures { IfOk result (λ list. list.items ≡ values.now) }
{
    let mut list = Items::new(alloc);
    list.reserve(values.len())?;
    for value in values {
        list.push(*value);
    }
    Ok(list)
}

fn chain_of(
    alloc: Global,
    scale: u64,
    away: u64,
    margins: &[u64],
    arrivals: &[u64],
    arcs: &[Arc],
) -> Result<Chain, NoMemory>
    requires { IsChain (record { scale = scale; away = away; margins = margins.now; arrivals = arrivals.now; arcs = arcs.now }) }
{
    let margins = list_of(alloc, margins)?;
    let arrivals = list_of(alloc, arrivals)?;
    let arcs = list_of(alloc, arcs)?;
    Ok(Chain::new(scale, away, margins, arrivals, arcs))
}

/// Compares what is wanted with what the chain gives.
fn compare(rt: &impl Abort, alloc: Global, chain: &Chain, wanted: &Wanted) -> Result<(), NoMemory> {
    let answer = solve_chain(alloc, chain)?;
    assert!(rt; answer.set.len() == wanted.set.len());
    for i in 0..wanted.set.len() {
        assert!(rt; answer.set.offers(i) == wanted.set[i]);
    }
    assert!(rt; answer.upper.as_slice() == wanted.upper);
    assert!(rt; answer.lower.as_slice() == wanted.lower);
    assert!(rt; answer.lo == wanted.lo && answer.up == wanted.up);
    Ok(())
}

/// Compares what is said of a chain's certificate in pieces of each size with what is wanted.
fn judge(
    rt: &impl Abort,
    alloc: Global,
    chain: &Chain,
    text: &[u8],
    wanted: Verdict,
) -> Result<(), NoMemory> {
    for size in SIZES {
        let checker = Checker::for_chain(alloc, chain)?;
        assert!(rt;
            verdict_by(checker, text, size) == wanted,
            "pieces of {size}"
        );
    }
    Ok(())
}

/// The certificate of the first chain below.
const ONE_IN_NINE: &[u8] =
    b"assort-proof 1\nmodel chain\nset 100\nvalue 1111111 1111112\nu 10000000 1111112 3333334\nh 10000000 1111111 3333333\nend\n";

/// The same with an upper number that is less than a move brings.
const TOO_LITTLE: &[u8] =
    b"assort-proof 1\nmodel chain\nset 100\nvalue 1111111 1111111\nu 10000000 1111111 3333334\nh 10000000 1111111 3333333\nend\n";

#[test]
fn one_customer_in_nine_gets_to_the_product_that_is_offered(rt: HostRuntime) -> Result<(), Fail> {
    let alloc = rt.alloc();
    let arcs = [arc(1, 2, 1), arc(2, 0, 1)];
    let chain = chain_of(alloc, 3, 0, &[10, 0, 0], &[0, 1, 0], &arcs)?;
    let wanted = Wanted {
        set: &[true, false, false],
        upper: &[10000000, 1111112, 3333334],
        lower: &[10000000, 1111111, 3333333],
        lo: 1111111,
        up: 1111112,
    };
    compare(&rt, alloc, &chain, &wanted)?;
    judge(&rt, alloc, &chain, ONE_IN_NINE, Verdict::Yes)?;
    judge(&rt, alloc, &chain, TOO_LITTLE, Verdict::No)?;
    Ok(())
}

#[test]
fn a_logit_as_a_chain_has_its_revenue_as_both_bounds(rt: HostRuntime) -> Result<(), Fail> {
    let alloc = rt.alloc();
    let arcs = [arc(0, 1, 21), arc(1, 0, 16)];
    let chain = chain_of(alloc, 56, 5, &[10, 4], &[2, 3], &arcs)?;
    let wanted = Wanted {
        set: &[true, true],
        upper: &[10000000, 4000000],
        lower: &[10000000, 4000000],
        lo: 3200000,
        up: 3200000,
    };
    compare(&rt, alloc, &chain, &wanted)?;
    Ok(())
}

#[test]
fn one_product_without_arcs_brings_its_margin(rt: HostRuntime) -> Result<(), Fail> {
    let alloc = rt.alloc();
    let chain = chain_of(alloc, 1, 0, &[7], &[1], &[])?;
    let wanted = Wanted {
        set: &[true],
        upper: &[7000000],
        lower: &[7000000],
        lo: 7000000,
        up: 7000000,
    };
    compare(&rt, alloc, &chain, &wanted)?;
    Ok(())
}

/// Margins 6, 0 and 2, scale 10: half of the third product's customers move to the first, and bring 3. The second leads
/// nowhere, and is offered, since its own margin is all that its customers bring.
#[test]
fn a_product_that_leads_nowhere_brings_its_own_margin(rt: HostRuntime) -> Result<(), Fail> {
    let alloc = rt.alloc();
    let arcs = [arc(0, 1, 5), arc(2, 0, 5)];
    let chain = chain_of(alloc, 10, 0, &[6, 0, 2], &[1, 1, 2], &arcs)?;
    let wanted = Wanted {
        set: &[true, true, false],
        upper: &[6000000, 0, 3000000],
        lower: &[6000000, 0, 3000000],
        lo: 3000000,
        up: 3000000,
    };
    compare(&rt, alloc, &chain, &wanted)?;
    Ok(())
}

//! What is known of a chain: an assortment, its vectors and its bounds.
ghost use Rattle.std.specs.Prelude.{◌≡◌, ℕ, ◌<◌, ◌==◌, length, slice_index, replicate, IfOk};
ghost use Rattle.offer_model.specs.Assortments.{offers};
ghost use Rattle.offer_model.specs.Chains.{place_count};
ghost use Rattle.offer_model.specs.ChainValidity.{IsChain};
ghost use Rattle.offer_model.specs.Claims.{IsBracketed};
ghost use Rattle.offer_model.specs.Stopping.{IsGreatest, IsStopping, value_bound, upper_step, lower_step};
ghost use Rattle.chain_moves.specs.Rows.{AreRows};
ghost use Rattle.chain_moves.specs.Values.{AreOwn};
ghost use Rattle.chain_values.specs.Sweeps.{IsSet};

use crate::rule::Rule;
use crate::settle::settled;
use crate::vectors::{copied, filled, numbers_of};
use chain_moves::{Move, lo_of, margins_of, rows_of, up_of, value_bound};
use offer_model::{Assortment, Chain, NoMemory, Numbers};
use std::alloc::Global;
use std::marker::Model;

/// An assortment, each product's number in the upper and in the lower vector, and the bounds, all in millionths of a
/// margin unit.
#[derive(Drop)]
pub struct ChainAnswer {
    pub set: Assortment,
    pub upper: Numbers,
    pub lower: Numbers,
    pub up: u64,
    pub lo: u64,
}

impl Model for ChainAnswer {
    ghost use Rattle.offer_model.specs.Stopping.{StoppingData};

    ghost Value = { StoppingData };

    ghost view = { λ a. record { set = a.set; upper = a.upper.items; lower = a.lower.items; lo = a.lo; up = a.up } };
}

/// The upper vector, from the greatest margin down.
fn upper_of(
    alloc: Global,
    chain: &Chain,
    rows: &[Vec<Move>],
    margins: &[u64],
    most: u64,
) -> Result<Vec<u64>, NoMemory>
    requires chain { IsChain chain.now }
    requires rows { AreRows chain.now rows.now }
    requires margins { AreOwn chain.now margins.now }
    requires most { most ≡ value_bound chain.now }
    ensures { IfOk result (λ v. IsGreatest (place_count chain.now) (value_bound chain.now) (upper_step chain.now) v.items) }
{
    let rule = Rule::upper(alloc, chain, margins, most)?;
    let start = filled(alloc, most, margins.len())?;
    let values = settled(alloc, chain, rows, &rule, start)?;
    Ok(values)
}

/// The products whose own margin reaches their value.
fn set_of(alloc: Global, upper: &[u64], margins: &[u64]) -> Result<Assortment, NoMemory>
    requires { length upper.now ≡ length margins.now }
    ensures each { IfOk result (λ x. length x ≡ length margins.now) }
    ensures set { IfOk result (λ x. (i : ℕ) → i < length margins.now → offers x i ≡ (slice_index upper.now i == slice_index margins.now i)) }
{
    let mut set = Assortment::empty(alloc, margins.len())?;
    for i in 0..margins.len() {
        set.set(i, upper[i] == margins[i]);
    }
    Ok(set)
}

/// The same of a chain.
fn own_set(
    alloc: Global,
    chain: &Chain,
    upper: &[u64],
    margins: &[u64],
) -> Result<Assortment, NoMemory>
    requires upper { length upper.now ≡ place_count chain.now }
    requires margins { AreOwn chain.now margins.now }
    ensures { IfOk result (λ x. IsSet chain.now upper.now x) }
{
    set_of(alloc, upper, margins)
}

/// The lower vector of the set, from the upper one down.
fn lower_of(
    alloc: Global,
    chain: &Chain,
    rows: &[Vec<Move>],
    margins: &[u64],
    most: u64,
    set: &Assortment,
    upper: &[u64],
) -> Result<Vec<u64>, NoMemory>
    requires chain { IsChain chain.now }
    requires rows { AreRows chain.now rows.now }
    requires margins { AreOwn chain.now margins.now }
    requires most { most ≡ value_bound chain.now }

    // the vector from which it starts
    requires set { IsSet chain.now upper.now set.now }
    requires upper { IsGreatest (place_count chain.now) (value_bound chain.now) (upper_step chain.now) upper.now }
    ensures { IfOk result (λ v. IsGreatest (place_count chain.now) (value_bound chain.now) (lower_step chain.now set.now) v.items) }
{
    let rule = Rule::lower(alloc, chain, margins, most, set)?;
    let start = copied(alloc, upper)?;
    let values = settled(alloc, chain, rows, &rule, start)?;
    Ok(values)
}

/// The answer of a chain with these vectors.
fn answer_of(
    alloc: Global,
    chain: &Chain,
    set: Assortment,
    upper: &[u64],
    lower: &[u64],
) -> Result<ChainAnswer, NoMemory>
    requires chain { IsChain chain.now }
    requires upper { IsGreatest (place_count chain.now) (value_bound chain.now) (upper_step chain.now) upper.now }
    requires set { IsSet chain.now upper.now set }
    requires lower { IsGreatest (place_count chain.now) (value_bound chain.now) (lower_step chain.now set) lower.now }
    ensures { IfOk result (λ a. IsStopping chain.now a) }
{
    let up = up_of(chain, upper);
    let lo = lo_of(chain, lower);
    let uppers = numbers_of(alloc, upper)?;
    let lowers = numbers_of(alloc, lower)?;
    Ok(ChainAnswer {
        set,
        upper: uppers,
        lower: lowers,
        up,
        lo,
    })
}

/// The stopping vectors of a chain, and the assortment and bounds read off them.
pub fn solve_chain(alloc: Global, chain: &Chain) -> Result<ChainAnswer, NoMemory>
    ensures answer { IfOk result (λ a. IsStopping chain.now a) }
    ensures claim { IfOk result (λ a. IsBracketed chain.now a.set a.lo a.up) }
{
    let rows = rows_of(alloc, chain)?;
    let margins = margins_of(alloc, chain)?;
    let most = value_bound(chain);
    let upper = upper_of(alloc, chain, &rows, &margins, most)?;
    let set = own_set(alloc, chain, &upper, &margins)?;
    let lower = lower_of(alloc, chain, &rows, &margins, most, &set, &upper)?;
    let answer = answer_of(alloc, chain, set, &upper, &lower)?;
    Ok(answer)
}

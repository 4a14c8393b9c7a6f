//! What a chain's certificate is judged by, and what it has said so far.
ghost use Rattle.std.specs.Prelude.{◌≡◌, ℕ, ◌↔◌, [], ◌∷◌, false, length, IfOk, IsTrue};
ghost use Rattle.offer_model.specs.Chains.{place_count};
ghost use Rattle.offer_model.specs.ChainValidity.{IsChain};
ghost use Rattle.proof_lines.specs.Lines.{AreDigits};
ghost use Rattle.proof_lines.specs.Acceptance.{digits_of};
ghost use Rattle.chain_check.specs.Waiting.{AreNear, GivesUp, GivesLo};

use crate::vectors::{bounds_above, bounds_below, take_values};
use chain_moves::{MOST_VALUE, Move, gap_of, lo_of, margins_of, rows_of, up_of, value_bound};
use offer_model::{Assortment, Chain, NoMemory, Wide};
use proof_tree::write_set;
use std::alloc::Global;
use std::marker::Model;

/// A chain with its moves and margins, room for a vector, and what has been read: the assortment and the two bounds.
/// Contracts see the chain and what has been read.
#[derive(Drop)]
pub(crate) struct Judge {
    chain: Chain,
    rows: Vec<Vec<Move>>,
    own: Vec<u64>,
    values: Vec<u64>,
    set: Assortment,
    most: u64,
    gap: u64,
    lo: u128,
    up: u128,
}

impl Model for Judge {
    ghost use Rattle.chain_check.specs.Stages.{JudgeData};
    ghost use Rattle.chain_check.specs.Vectors.{IsJudge};

    ghost Value = { JudgeData };

    ghost view = { λ j. record { chain = j.chain; set = j.set; lo = j.lo; up = j.up } };

    ghost invariant = { λ j. IsJudge j.chain j.rows j.own j.values j.set j.most j.gap };
}

impl Judge {
    /// A judge that has read nothing.
    pub(crate) fn new(alloc: Global, chain: &Chain) -> Result<Judge, NoMemory>
        ensures chain { IfOk result (λ j. j.chain ≡ chain.now) }
        ensures valid { IfOk result (λ j. IsChain j.chain) }
    {
        let chain = copied(alloc, chain)?;
        let rows = rows_of(alloc, &chain)?;
        let own = margins_of(alloc, &chain)?;
        let values = margins_of(alloc, &chain)?;
        let set = Assortment::empty(alloc, own.len())?;
        let most = value_bound(&chain);
        let gap = gap_of(&chain, &rows);
        Ok(Judge {
            chain,
            rows,
            own,
            values,
            set,
            most,
            gap,
            lo: 0,
            up: 0,
        })
    }

    /// Takes the assortment of these digits, and says whether there is one for each product.
    pub(crate) fn take_set(&mut self, digits: &Wide) -> bool
        requires { AreDigits digits.now.items }
        ensures each { IsTrue result ↔ (length digits.now.items ≡ place_count self.old.chain) }
        ensures set { IsTrue result → digits_of self.new.set ≡ digits.now.items }
        ensures chain { self.new.chain ≡ self.old.chain }
    {
        if digits.len() != self.own.len() {
            return false;
        }
        write_set(digits, &mut self.set);
        true
    }

    /// Takes the bounds of a value line, and says whether they are near.
    pub(crate) fn take_bounds(&mut self, numbers: &Wide) -> bool
        ensures taken { IsTrue result → numbers.now.items ≡ 2 ∷ self.new.lo ∷ self.new.up ∷ [] }
        ensures near { IsTrue result → AreNear self.old.chain self.new.lo self.new.up }
        ensures refused { result ≡ false → (lo up : ℕ) → numbers.now.items ≡ 2 ∷ lo ∷ up ∷ [] → ¬ AreNear self.old.chain lo up }
        ensures set { self.new.set ≡ self.old.set }
        ensures chain { self.new.chain ≡ self.old.chain }
    {
        if numbers.len() != 3 || *numbers.get(0) != 2 {
            return false;
        }
        self.lo = *numbers.get(1);
        self.up = *numbers.get(2);
        self.lo <= self.up && self.up - self.lo <= u128::from(self.gap)
    }

    /// Whether the vector bounds above, and gives the upper bound.
    pub(crate) fn gives_up(&mut self, numbers: &Wide) -> bool
        ensures gives { IsTrue result ↔ GivesUp self.old.chain self.old.up numbers.now.items }
        ensures kept { self.new ≡ self.old }
    {
        if !take_values(numbers, MOST_VALUE, &mut self.values) {
            return false;
        }
        if !bounds_above(&self.chain, &self.rows, &self.own, &self.values) {
            return false;
        }
        u128::from(up_of(&self.chain, &self.values)) == self.up
    }

    /// Whether the vector bounds below, and gives the lower bound.
    pub(crate) fn gives_lo(&mut self, numbers: &Wide) -> bool
        ensures gives { IsTrue result ↔ GivesLo self.old.chain self.old.set self.old.lo numbers.now.items }
        ensures kept { self.new ≡ self.old }
    {
        if !take_values(numbers, self.most, &mut self.values) {
            return false;
        }
        if !bounds_below(&self.chain, &self.rows, &self.own, &self.set, &self.values) {
            return false;
        }
        u128::from(lo_of(&self.chain, &self.values)) == self.lo
    }
}

/// An equal chain.
fn copied(alloc: Global, chain: &Chain) -> Result<Chain, NoMemory>
    ensures { IfOk result (λ copy. copy ≡ chain.now) }
{
    let margins = chain.margins().copy(alloc)?;
    let arrivals = chain.arrivals().copy(alloc)?;
    let arcs = chain.arcs().copy(alloc)?;
    Ok(Chain::new(chain.scale(), chain.away(), margins, arrivals, arcs))
}

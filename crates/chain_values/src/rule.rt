//! Rules of sweeps: what makes a product's next value of the values of all.
ghost use Rattle.std.specs.Prelude.{◌≡◌, ℕ, ◌<◌, length, slice_index, cond, false, replicate, IfOk};
ghost use Rattle.offer_model.specs.Assortments.{offers};
ghost use Rattle.offer_model.specs.Chains.{place_count};
ghost use Rattle.offer_model.specs.ChainValidity.{IsChain};
ghost use Rattle.offer_model.specs.Stopping.{value_bound};
ghost use Rattle.chain_values.specs.Sweeps.{IsRule, IsUpperRule, IsLowerRule};
ghost use Rattle.chain_moves.specs.Values.{AreOwn};

use crate::vectors::copied;
use offer_model::{Assortment, Chain, NoMemory};
use std::alloc::Global;
use std::marker::Model;

/// What sweeps go by, in millionths of a margin unit but for `held`.
#[derive(Drop)]
pub struct Rule {
    /// The least that each product's value is.
    base: Vec<u64>,
    /// The products whose value stays at it.
    held: Assortment,
    /// What is added before a division by the scale: the scale less 1 rounds up.
    round: u64,
    /// The greatest that a value can be.
    most: u64,
}

impl Model for Rule {
    ghost use Rattle.chain_values.specs.Sweeps.{RuleData};

    ghost Value = { RuleData };

    ghost view = { λ r. record { base = r.base.items; held = r.held; round = r.round; most = r.most } };
}

impl Rule {
    /// The least that product `i`'s value is.
    pub fn base(&self, i: usize) -> u64
        requires { i < length self.now.base }
        ensures { result ≡ slice_index self.now.base i }
    {
        self.base[i]
    }

    /// Whether product `i` stays at its base.
    pub fn holds(&self, i: usize) -> bool
        requires { i < length self.now.held }
        ensures { result ≡ offers self.now.held i }
    {
        self.held.offers(i)
    }

    /// What is added before a division by the scale.
    pub fn round(&self) -> u64
        ensures { result ≡ self.now.round }
    {
        self.round
    }

    /// The greatest that a value can be.
    pub fn most(&self) -> u64
        ensures { result ≡ self.now.most }
    {
        self.most
    }

    /// The rule of the upper vector.
    pub fn upper(alloc: Global, chain: &Chain, margins: &[u64], most: u64) -> Result<Rule, NoMemory>
        requires chain { IsChain chain.now }
        requires margins { AreOwn chain.now margins.now }
        requires most { most ≡ value_bound chain.now }
        ensures rule { IfOk result (λ r. IsRule chain.now r) }
        ensures upper { IfOk result (λ r. IsUpperRule chain.now r) }
    {
        let base = copied(alloc, margins)?;
        let held = Assortment::empty(alloc, margins.len())?;
        Ok(Rule {
            base,
            held,
            round: chain.scale() - 1,
            most,
        })
    }

    /// The rule of the lower vector of an assortment.
    pub fn lower(
        alloc: Global,
        chain: &Chain,
        margins: &[u64],
        most: u64,
        set: &Assortment,
    ) -> Result<Rule, NoMemory>
        requires chain { IsChain chain.now }
        requires margins { AreOwn chain.now margins.now }
        requires most { most ≡ value_bound chain.now }
        requires set { length set.now ≡ place_count chain.now }
        ensures rule { IfOk result (λ r. IsRule chain.now r) }
        ensures lower { IfOk result (λ r. IsLowerRule chain.now set.now r) }
    {
        let base = base_of(alloc, margins, set)?;
        let held = set.copy(alloc)?;
        Ok(Rule {
            base,
            held,
            round: 0,
            most,
        })
    }
}

/// The own margins of what is offered, and 0 for the others.
fn base_of(alloc: Global, margins: &[u64], set: &Assortment) -> Result<Vec<u64>, NoMemory>
    requires { length set.now ≡ length margins.now }
    ensures each { IfOk result (λ v. length v.items ≡ length margins.now) }
    ensures base { IfOk result (λ v. (i : ℕ) → i < length margins.now → slice_index v.items i ≡ cond (offers set.now i) (slice_index margins.now i) 0) }
{
    let mut base = Vec::new(alloc);
    for i in 0..margins.len() {
        base.push(if set.offers(i) { margins[i] } else { 0 })?;
    }
    Ok(base)
}

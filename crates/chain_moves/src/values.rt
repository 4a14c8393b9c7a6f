//! Margins in millionths.
ghost use Rattle.std.specs.Prelude.{◌≡◌, ◌≤◌, ◌^◌, IfOk};
ghost use Rattle.offer_model.specs.ChainValidity.{IsChain};
ghost use Rattle.offer_model.specs.Stopping.{value_bound};
ghost use Rattle.chain_moves.specs.Values.{AreOwn};

use offer_model::{Chain, NoMemory};
use std::alloc::Global;

/// How many millionths a margin unit has.
pub const MILLION: u64 = 1_000_000;

/// The greatest margin that a product may have, in millionths. No sum over a vector of such values overflows.
pub const MOST_VALUE: u64 = 1_000_000_000_000_000;

/// Each product's own margin in millionths.
pub fn margins_of(alloc: Global, chain: &Chain) -> Result<Vec<u64>, NoMemory>
    ensures { IfOk result (λ v. AreOwn chain.now v.items) }
{
    let margins = chain.margins().as_slice();
    let mut all = Vec::new(alloc);
    for i in 0..margins.len() {
        all.push(MILLION * margins[i])?;
    }
    Ok(all)
}

/// The greatest of them.
pub fn value_bound(chain: &Chain) -> u64
    ensures value { result ≡ value_bound chain.now }
    ensures small { result ≤ 10 ^ 15 }
    ensures valid { IsChain chain.now }
{
    let margins = chain.margins().as_slice();
    let mut most = 0;
    for i in 0..margins.len() {
        most = margins[i].max(most);
    }
    MILLION * most
}

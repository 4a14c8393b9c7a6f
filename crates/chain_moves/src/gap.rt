//! How far the bounds of a chain may lie apart.
ghost use Rattle.std.specs.Prelude.{◌≡◌, ◌<◌, ◌≤◌};
ghost use Rattle.offer_model.specs.Chains.{least_leaving};
ghost use Rattle.offer_model.specs.Moves.{gap_of};
ghost use Rattle.chain_moves.specs.Rows.{AreRows};

use crate::rows::{Move, parts_of};
use offer_model::Chain;

/// The least part of the scale with which customers leave at a product that isn't offered.
fn least_leaving(chain: &Chain, rows: &[Vec<Move>]) -> u64
    requires rows { AreRows chain.now rows.now }
    ensures value { result ≡ least_leaving chain.now }
    ensures some { 0 < result }
{
    let scale = chain.scale();
    let mut least = scale;
    for row in rows {
        least = least.min(scale - parts_of(row));
    }
    least
}

/// The most that the two bounds may lie apart, in millionths of a margin unit.
pub fn gap_of(chain: &Chain, rows: &[Vec<Move>]) -> u64
    requires rows { AreRows chain.now rows.now }
    ensures { result ≡ gap_of chain.now }
{
    2 * (chain.scale() - 1) / least_leaving(chain, rows) + 1
}

//! The multipliers that the cutoffs of a filling come to.
ghost use Rattle.std.specs.Prelude.{◌≡◌, ◌-◌, ◌==◌, cond, length, IfOk};
ghost use Rattle.rank_step.specs.Caps.{IsBelow};
ghost use Rattle.rank_step.specs.Multipliers.{AreMultipliers};

use crate::places::CapPlaces;
use crate::rooms::Rooms;
use offer_model::{NoMemory, Wide};
use std::alloc::Global;

fn multiplier(is_total: bool, cutoff: u128, top: u128) -> u128
    ensures { result ≡ cond is_total cutoff (cutoff - top) }
{
    if is_total {
        cutoff
    } else {
        cutoff.saturating_sub(top)
    }
}

/// The multipliers of a filling, one for each cap in file order.
pub fn multipliers(alloc: Global, at: &CapPlaces, rooms: &Rooms) -> Result<Wide, NoMemory>
    requires { IsBelow (length rooms.now.cutoffs) at.now.total }
    ensures { IfOk result (λ us. AreMultipliers at.now rooms.now us.items) }
{
    let mut us = Wide::new(alloc);
    us.reserve(rooms.len())?;
    let top = rooms.cutoff(at.total());
    for k in 0..rooms.len() {
        us.push(multiplier(at.is_total(k), rooms.cutoff(Some(k)), top));
    }
    Ok(us)
}

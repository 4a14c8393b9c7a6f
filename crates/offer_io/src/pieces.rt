//! A file that is open for reading, taken piece by piece up to a limit on the whole.
ghost use Rattle.std.specs.Prelude.{◌≡◌, true, [], ◌+◌, ◌-◌, ◌<◌, ◌≤◌, ◌++◌, ◌↔◌, length, take, IfOk, OnErr, IsErrOf, IsTrue};
ghost use Rattle.offer_io.specs.Causes.{Rose};
ghost use Rattle.offer_io.specs.Stores.{Passes};
ghost use Rattle.offer_io.specs.Pieces.{HasTaken};

use crate::Store;
use thiserror::Error;

/// Why no piece of a file was read.
#[derive(Clone, Copy, Debug, PartialEq, Eq, Error)]
pub enum PieceFault {
    #[error("the file can't be read")]
    ReadFault,
    #[error("the file is too long")]
    TooLong,
}

/// Puts the next bytes of the open input at the front of a piece, and answers their number, which is
/// 0 only at the end. All pieces of the file together have at most so many bytes, of which some were
/// taken already; the number is added to these.
pub fn next_piece<S: Store>(
    store: &mut S,
    most: usize,
    taken: &mut usize,
    piece: &mut [u8],
) -> Result<usize, PieceFault>
    requires reading { IsTrue (S.view store.old).reading }
    requires fits { taken.old ≤ most }
    requires room { 0 < length piece.old }
    ensures passes { Passes (S.view store.old) (S.view store.new) }
    ensures reading { (S.view store.new).reading ≡ true }

    // What was taken fits. After a fault nothing counts as taken.
    ensures count { IfOk result (λ n. n ≤ length piece.new) }
    ensures taken { IfOk result (λ n. taken.new ≡ taken.old + n) }
    ensures fits { taken.new ≤ most }
    ensures err { OnErr result (taken.new ≡ taken.old) }

    // Where the store tells its files: which bytes come, that 0 is the end, and what a fault left.
    ensures bytes { IsTrue (S.view store.old).tells → IfOk result (λ n.
        (S.view store.old).left ≡ take n piece.new ++ (S.view store.new).left) }
    ensures end { IsTrue (S.view store.old).tells → IfOk result (λ n.
        n ≡ 0 ↔ (S.view store.old).left ≡ []) }
    ensures skipped { IsTrue (S.view store.old).tells → OnErr result
        (HasTaken (S.view store.old) 0 (S.view store.new)) }
    ensures too_long { IsErrOf result PieceFault.TooLong → IsTrue (S.view store.old).tells
        → HasTaken (S.view store.old) (most - taken.old + 1) (S.view store.new) }

    // On a steady store no read fails.
    ensures read_fault { IsErrOf result PieceFault.ReadFault
        → Rose (S.view store.old).faults (S.view store.new).faults }
    ensures ready { IsTrue (S.view store.old).steady → ¬ IsErrOf result PieceFault.ReadFault }
{
    let count = match store.read(piece) {
        Err(_) => return Err(PieceFault::ReadFault),
        Ok(count) => count,
    };
    if count > most - *taken {
        return Err(PieceFault::TooLong);
    }
    *taken += count;
    Ok(count)
}

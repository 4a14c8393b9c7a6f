//! The certificate that is checked, fed to a checker piece by piece.
ghost use Rattle.std.specs.Prelude.{◌≡◌, ◌↔◌, IfOk, IfErr, IsErrOf, IsTrue};
ghost use Rattle.offer_io.specs.Stores.{Passes};
ghost use Rattle.proof_check.specs.Waiting.{Takes};
ghost use Rattle.assort_core.specs.Stops.{WhyUnloaded};
ghost use Rattle.assort_core.specs.Verdicts.{HasVerdict};

use crate::stop::Stop;
use catalogue::{Code, FileName};
use offer_io::{PieceFault, Store, next_piece};
use proof_check::{Checker, Verdict};

/// The most bytes of a piece.
const MOST_PIECE: usize = 65_536;

fn is_yes(verdict: Verdict) -> bool
    ensures { IsTrue result ↔ (verdict ≡ Verdict.Yes) }
{
    matches!(verdict, Verdict::Yes)
}

/// Whether the whole text of a proof is accepted. It is read to its end, also where its beginning can't be accepted: a file that is
/// too large is a fault, whatever it begins with. No memory is taken.
pub(crate) fn read_verdict<S: Store>(
    store: &mut S,
    name: &str,
    most: usize,
    mut checker: Checker,
) -> Result<bool, Stop>
    ensures passes { Passes (S.view store.old) (S.view store.new) }
    ensures verdict { IfOk result (HasVerdict (Takes checker) (S.view store.old) name.now most) }
    ensures stopped { IfErr result (WhyUnloaded FileName.Proof name.now most (S.view store.old) (S.view store.new)) }
    ensures memory { ¬ IsErrOf result Stop.NoMemory }
{
    if store.open(name).is_err() {
        return Err(Stop::Unread(FileName::Proof));
    }
    let mut taken = 0;
    let mut piece = [0u8; MOST_PIECE];
    'pieces: loop {
        match next_piece(store, most, &mut taken, &mut piece) {
            Err(PieceFault::ReadFault) => return Err(Stop::Unread(FileName::Proof)),
            Err(PieceFault::TooLong) => {
                return Err(Stop::Faulty(FileName::Proof, 0, Code::TooLarge));
            }
            Ok(0) => return Ok(is_yes(checker.finish())),
            Ok(count) => checker.feed(&piece[..count]),
        }
    }
}

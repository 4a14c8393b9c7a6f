ghost use Rattle.std.specs.Prelude.{◌≡◌, Some, ◌≤◌, length, IfOk, IsErrOf, IsTrue, Contains};
ghost use Rattle.offer_io.specs.Causes.{Rose};
ghost use Rattle.offer_io.specs.Stores.{Passes, IsLonger};

use crate::Store;
use offer_model::Bytes;
use std::alloc::Global;
use thiserror::Error;

/// Why a file was not loaded.
#[derive(Clone, Copy, Debug, PartialEq, Eq, Error)]
pub enum LoadFault {
    #[error("the file can't be read")]
    ReadFault,
    #[error("the file is too long")]
    TooLong,
    #[error("memory ran out")]
    NoMemory,
}

/// How many bytes are asked for at a time.
const PIECE: usize = 8192;

/// The whole content of a file of at most so many bytes. The file is left open for reading.
///
/// Want of memory is tied to no clause: `NoMemory` may come at any file.
pub fn load<S: Store>(
    alloc: Global,
    store: &mut S,
    name: &str,
    most: usize,
) -> Result<Bytes, LoadFault>
    ensures passes { Passes (S.view store.old) (S.view store.new) }

    // Where the store tells its files, Ok and TooLong come only where the file is there.
    ensures content { IfOk result (λ bytes. IsTrue (S.view store.old).tells
        → (S.view store.old).file name.now ≡ Some bytes.items) }
    ensures fits { IfOk result (λ bytes. length bytes.items ≤ most) }
    ensures too_long { IsErrOf result LoadFault.TooLong → IsTrue (S.view store.old).tells
        → IsLonger ((S.view store.old).file name.now) most }

    // On a steady store that holds the name no read fails.
    ensures read_fault { IsErrOf result LoadFault.ReadFault
        → Rose (S.view store.old).faults (S.view store.new).faults }
    ensures ready { IsTrue (S.view store.old).steady → Contains (S.view store.old).held name.now
        → ¬ IsErrOf result LoadFault.ReadFault }
{
    if store.open(name).is_err() {
        return Err(LoadFault::ReadFault);
    }
    let mut bytes = Bytes::new(alloc);
    let mut piece = [0u8; PIECE];
    'pieces: loop {
        match store.read(&mut piece) {
            Err(_) => return Err(LoadFault::ReadFault),
            Ok(0) => return Ok(bytes),
            Ok(count) => {
                if count > most - bytes.len() {
                    return Err(LoadFault::TooLong);
                }
                if bytes.reserve(count).is_err() {
                    return Err(LoadFault::NoMemory);
                }
                bytes.push_slice(&piece[..count]);
            }
        }
    }
}

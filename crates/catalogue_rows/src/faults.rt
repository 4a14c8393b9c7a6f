//! What can be wrong with an input file.
use offer_model::NoMemory;
use std::alloc::{AllocError, AllocFailed};
use thiserror::Error;

/// The files that a command reads, and the word of `--offer`.
#[derive(Clone, Copy, Debug, PartialEq, Eq)]
pub enum FileName {
    Products,
    Limits,
    Segments,
    Arcs,
    Proof,
    Offer,
}

/// What is wrong with a row of a file.
#[derive(Clone, Copy, Debug, PartialEq, Eq)]
pub enum Code {
    /// A field that is no name.
    BadName,
    /// A field that isn't 1 to 20 ASCII digits.
    BadNumber,
    /// A number outside its column's range.
    OutOfRange,
    /// A name that an earlier row has.
    RepeatedName,
    /// A name that nothing has.
    UnknownName,
    /// A kind of limit that there isn't.
    UnknownKind,
    /// An earlier row has the same kind and names the same.
    RepeatedLimit,
    /// Under generalised attraction, a shadow above its attraction.
    ShadowAbove,
    TooManyProducts,
    TooManyLines,
    /// The segments' sizes times the unit sum to too much.
    SizesTooGreat,
    /// Nobody arrives at any product.
    NoArrivals,
    /// A product whose customers never leave.
    NoLeaving,
    /// A header field that is no column's name.
    UnknownColumn,
    /// A header field that stands a second time.
    RepeatedColumn,
    /// This column, from 0 in the order of the file's columns, is needed and absent.
    MissingColumn(usize),
    /// A record with another number of fields than the header.
    FieldCount,
    /// The file is above its limit of bytes.
    TooLarge,
    /// The word of `--offer` has another length than the catalogue.
    WrongLength,
}

/// Why a file gives nothing.
#[derive(Clone, Copy, Debug, PartialEq, Eq, Error)]
pub enum InputFault {
    /// Rows count the records from 1, the header being row 1.
    #[error("{file:?} row {row}: {code:?}")]
    Fault {
        file: FileName,
        row: usize,
        code: Code,
    },
    #[error("out of memory")]
    NoMemory,
}

impl From<NoMemory> for InputFault {
    ghost use Rattle.std.specs.Prelude.{◌≡◌};
    ghost use Rattle.catalogue_rows.specs.declared.faults.InputFault.TheVariants as fault;

    ghost from_gives = { λ _ e. e ≡ fault.NoMemory };

    fn from(_: NoMemory) -> Self {
        InputFault::NoMemory
    }
}

impl From<AllocError> for InputFault {
    ghost use Rattle.std.specs.Prelude.{◌≡◌};
    ghost use Rattle.catalogue_rows.specs.declared.faults.InputFault.TheVariants as fault;

    ghost from_gives = { λ _ e. e ≡ fault.NoMemory };

    fn from(_: AllocError) -> Self {
        InputFault::NoMemory
    }
}

impl<T: Drop> From<AllocFailed<T>> for InputFault {
    ghost use Rattle.std.specs.Prelude.{◌≡◌};
    ghost use Rattle.catalogue_rows.specs.declared.faults.InputFault.TheVariants as fault;

    ghost from_gives = { λ _ e. e ≡ fault.NoMemory };

    fn from(_: AllocFailed<T>) -> Self {
        InputFault::NoMemory
    }
}

//! What keeps a file from being a table.
use offer_model::NoMemory;
use thiserror::Error;

/// Why bytes are no table of the columns.
#[derive(Clone, Copy, Debug, PartialEq, Eq, Error)]
pub enum TableFault {
    /// The header's field at this place, from 0, is no column's name.
    #[error("unknown column at place {0}")]
    UnknownColumn(usize),
    /// The header's field at this place, from 0, is the name of a column to its left.
    #[error("repeated column at place {0}")]
    RepeatedColumn(usize),
    /// This column, from 0 in the order of the names, is needed and absent.
    #[error("missing column {0}")]
    MissingColumn(usize),
    /// This row has another number of fields than the header. Rows count the records from 1, the header being
    /// row 1.
    #[error("another number of fields in row {0}")]
    FieldCount(usize),
    #[error("out of memory")]
    NoMemory,
}

impl From<NoMemory> for TableFault {
    ghost use Rattle.std.specs.Prelude.{◌≡◌};
    ghost use Rattle.table_reader.specs.declared.faults.TableFault.TheVariants as fault;

    ghost from_gives = { λ _ e. e ≡ fault.NoMemory };

    fn from(_: NoMemory) -> Self {
        TableFault::NoMemory
    }
}

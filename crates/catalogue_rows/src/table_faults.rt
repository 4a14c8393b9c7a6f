//! Faults of a file that is no table, as faults of that file.
ghost use Rattle.std.specs.Prelude.{◌≡◌};
ghost use Rattle.catalogue_rows.specs.Faults.{fault_of_table};

use crate::faults::{Code, FileName, InputFault};
use table_reader::TableFault;

/// The fault of a file that is no table of its columns.
pub fn fault_of_table(file: FileName, fault: TableFault) -> InputFault
    ensures { result ≡ fault_of_table file fault }
{
    let (row, code) = match fault {
        TableFault::UnknownColumn(_) => (1, Code::UnknownColumn),
        TableFault::RepeatedColumn(_) => (1, Code::RepeatedColumn),
        TableFault::MissingColumn(c) => (1, Code::MissingColumn(c)),
        TableFault::FieldCount(row) => (row, Code::FieldCount),
        TableFault::NoMemory => return InputFault::NoMemory,
    };
    InputFault::Fault { file, row, code }
}

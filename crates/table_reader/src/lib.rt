//! Tables of N columns: from the bytes of a file to its columns by name and its data rows, or to its first
//! fault.
#![tactic(auto)]

mod checks;
mod columns;
mod faults;
mod header;
mod records;
mod table;

pub use columns::Columns;
pub use faults::TableFault;
pub use table::{Table, read_table};

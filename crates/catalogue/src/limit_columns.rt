//! The columns of a limits file, by their places in the order of their names.

pub const KIND: usize = 0;

pub const FIRST: usize = 1;

pub const SECOND: usize = 2;

pub const NUMBER: usize = 3;

/// The number of columns.
pub const LIMIT_COLUMNS: usize = 4;

/// The names of the columns.
pub const COLUMNS: [&[u8]; LIMIT_COLUMNS] = [b"kind", b"first", b"second", b"number"];

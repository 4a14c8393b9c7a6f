//! The columns of an arcs file, by their places in the order of their names.

pub const FROM: usize = 0;

pub const TO: usize = 1;

pub const PARTS: usize = 2;

/// The number of columns.
pub const ARC_COLUMNS: usize = 3;

/// The names of the columns.
pub const COLUMNS: [&[u8]; ARC_COLUMNS] = [b"from", b"to", b"parts"];

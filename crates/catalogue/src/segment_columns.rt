//! The columns of a segments file, by their places in the order of their names.

pub const SEGMENT: usize = 0;

pub const PRODUCT: usize = 1;

pub const SIZE: usize = 2;

/// Of attractions, in a head of the weight of buying nothing.
pub const WEIGHT: usize = 3;

/// The number of columns.
pub const SEGMENT_COLUMNS: usize = 4;

/// The names of the columns.
pub const COLUMNS: [&[u8]; SEGMENT_COLUMNS] = [b"segment", b"product", b"size", b"attraction"];

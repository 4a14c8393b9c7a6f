//! The columns of a products file, by their places in the order of their names.

pub const NAME: usize = 0;

pub const MARGIN: usize = 1;

pub const ATTRACTION: usize = 2;

pub const SHADOW: usize = 3;

pub const CATEGORY: usize = 4;

pub const SPACE: usize = 5;

pub const PRICE: usize = 6;

pub const LADDER: usize = 7;

pub const GRADE: usize = 8;

pub const ARRIVAL: usize = 9;

/// The number of columns.
pub const PRODUCT_COLUMNS: usize = 10;

/// The names of the columns, for reading and for printing.
pub const COLUMNS: [&[u8]; PRODUCT_COLUMNS] = [
    b"name",
    b"margin",
    b"attraction",
    b"shadow",
    b"category",
    b"space",
    b"price",
    b"ladder",
    b"grade",
    b"arrival",
];

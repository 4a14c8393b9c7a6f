//! Catalogues: from the bytes of limits and segments files over the rows of a catalogue to limits, segments and a problem. The
//! rows themselves are those of `catalogue_rows`, and have their names here too.
#![tactic(auto)]

mod limit_columns;
mod limit_kinds;
mod limit_names;
mod limit_rows;
mod limits;
mod problems;
mod segment_columns;
mod segment_draft;
mod segment_rows;
mod segment_table;
mod segments;

pub use catalogue_rows::{
    ARRIVAL, ATTRACTION, CATEGORY, Catalogue, Code, FileName, GRADE, InputFault, LADDER, MARGIN,
    MOST_NAME, MOST_TABLE, NAME, PRICE, SHADOW, SPACE, plain_catalogue, print_products,
    read_products,
};
pub use limit_columns::{FIRST, KIND, NUMBER, SECOND};
pub use limits::read_limits;
pub use problems::problem_of;
pub use segment_columns::{PRODUCT, SEGMENT, SIZE, WEIGHT};
pub use segment_table::SegmentTable;
pub use segments::read_segments;

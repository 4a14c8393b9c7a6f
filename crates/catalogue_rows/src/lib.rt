//! The rows of a catalogue, their names and their cells: from the bytes of a products file to rows, or to the first fault, and back.
#![tactic(auto)]

mod catalogue;
mod cells;
mod faults;
mod laws;
mod name_set;
mod names;
mod plain;
mod printing;
mod product_cells;
mod product_columns;
mod product_places;
mod product_rows;
mod products;
mod table_faults;

pub use catalogue::{Catalogue, Row};
pub use cells::{cell, parse_name, parse_number};
pub use faults::{Code, FileName, InputFault};
pub use laws::worked_catalogues_hold;
pub use name_set::NameSet;
pub use names::MOST_NAME;
pub use plain::plain_catalogue;
pub use printing::print_products;
pub use product_columns::{
    ARRIVAL, ATTRACTION, CATEGORY, GRADE, LADDER, MARGIN, NAME, PRICE, SHADOW, SPACE,
};
pub use product_places::ProductPlaces;
pub use products::{MOST_TABLE, read_products};
pub use table_faults::fault_of_table;

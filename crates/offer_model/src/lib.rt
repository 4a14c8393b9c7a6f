//! Problems of assortment optimisation: products, segments of customers, limits, and what an assortment earns.
#![tactic(auto)]

mod arc;
mod assortment;
mod chains;
mod earnings;
mod laws;
mod lists;
mod memory;
mod node;
mod numerals;
mod problem_copy;
mod problems;
mod products;
mod ranges;
mod segments;
mod texts;

pub use arc::Arc;
pub use assortment::Assortment;
pub use chains::Chain;
pub use earnings::{
    compare_fraction, gain, mixed_value, product_gain, revenue, segment_revenue, share,
    value_order, weight,
};
pub use laws::{ranges_are_stated, worked_values_hold};
pub use lists::{Arcs, Bytes, Items, Limits, Numbers, Products, Segments, Wide};
pub use memory::NoMemory;
pub use node::{Mark, Node};
pub use numerals::{MOST_DIGITS, read_number};
pub use problem_copy::copy_segments;
pub use problems::Problem;
pub use products::{Fraction, Limit, ModelName, Product};
pub use ranges::{
    MOST_AMOUNT, MOST_ARCS, MOST_COUNT, MOST_LIMITS, MOST_PRODUCTS, MOST_REQUIRES, MOST_SCALE,
    MOST_SEGMENTS,
};
pub use segments::Segment;
pub use texts::Texts;

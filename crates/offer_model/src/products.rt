//! Products, limits, models and fractions.
/// The choice models.
#[derive(Clone, Copy, Debug, PartialEq, Eq)]
pub enum ModelName {
    Logit,
    Attract,
    Mixed,
    Chain,
}

/// What the limits and the revenue read of a product. The attraction stands in the segments.
#[derive(Clone, Copy, Debug, PartialEq, Eq)]
pub struct Product {
    /// What one sale brings, 0 to 1,000,000,000.
    pub margin: u64,
    /// 0 without a category, else its number from 1 in order of first appearance.
    pub category: u32,
    /// The shelf space that it takes, 0 to 1,000.
    pub space: u64,
    /// 0 to 1,000,000,000.
    pub price: u64,
    /// 0 without a price ladder, else its number from 1 in order of first appearance.
    pub ladder: u32,
    /// Its grade on the ladder, 0 to 1,000.
    pub grade: u64,
}

/// A limit on what is offered together.
#[derive(Clone, Copy, Debug, PartialEq, Eq)]
pub enum Limit {
    /// At most so many products.
    Total(u64),
    /// At most so many products of a category.
    Category(u32, u64),
    /// The first product only with the second.
    Requires(usize, usize),
    /// At most so much space.
    Shelf(u64),
    /// On this ladder no two of one grade, and no fall of price from a grade to a higher one.
    Ladder(u32),
}

/// A fraction, unreduced.
#[derive(Clone, Copy, Debug, PartialEq, Eq)]
pub struct Fraction {
    pub num: u128,
    pub den: u128,
}

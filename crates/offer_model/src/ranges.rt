//! The ranges of the formats, as the code compares with them.
/// The most products of a catalogue.
pub const MOST_PRODUCTS: usize = 256;

/// The greatest margin, attraction, shadow, price, arrival, weight of buying nothing and of arriving nowhere, size and unit.
pub const MOST_AMOUNT: u64 = 1_000_000_000;

/// The greatest cap, shelf, space and grade.
pub const MOST_COUNT: u64 = 1_000;

/// The most segments of a mixed model.
pub const MOST_SEGMENTS: usize = 32;

/// The most limits.
pub const MOST_LIMITS: usize = 1_024;

/// The most limits of the kind `requires`.
pub const MOST_REQUIRES: usize = 512;

/// The greatest scale of a chain.
pub const MOST_SCALE: u64 = 10_000;

/// The most arcs of a chain: one for each pair of products.
pub const MOST_ARCS: usize = 65_536;

//! The lines of certificates: their shapes and numbers.
use offer_model::{ModelName, Wide};

/// The shapes of a certificate's lines.
#[derive(Clone, Copy, Debug, PartialEq, Eq)]
pub enum Shape {
    /// `assort-proof 1`, the first line.
    Start,
    /// `model logit`, `model attract`, `model mixed` or `model chain`.
    Model(ModelName),
    /// `set` and the assortment's digits, or `-`.
    Set,
    /// `value` and what the assortment earns.
    Value,
    /// `b` and a product: the branch on it.
    Branch,
    /// `x`: the node clashes with a limit.
    Clash,
    /// `m` and a multiplier for each limit that isn't a ladder.
    Multipliers,
    /// `t`: the bound by a table over the shelf's space.
    Shelf,
    /// `p` and a potential for each product.
    Potentials,
    /// `s` and a number for each segment.
    Segments,
    /// `u` and an upper value for each product of a chain.
    Upper,
    /// `h` and a lower value for each product of a chain.
    Lower,
    /// `end`, the last line.
    End,
}

/// A line of a certificate. Of a set line the numbers are its digits. Of a value line they are first its form and then
/// its one or two numbers; the form is 1 with a slash between two numbers, 2 with a space, and 0 with one number. Of
/// every other line they are the numbers that stand in it.
#[derive(Drop)]
pub struct Line {
    pub shape: Shape,
    pub numbers: Wide,
}

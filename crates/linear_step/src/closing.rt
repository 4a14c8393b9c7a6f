//! What closes a node.
use offer_model::Wide;

/// What closes a node.
#[derive(Drop)]
pub enum Closing {
    /// It clashes with a limit.
    Clash,
    /// A multiplier for each limit that isn't a ladder, in file order.
    Multipliers(Wide),
    /// The table over products and space.
    Shelf,
    /// A potential for each product, in catalogue order.
    Potentials(Wide),
}

//! Arcs of a Markov chain.
/// The customers at product `from` who don't find it and move on to product `to`.
#[derive(Clone, Copy, Debug, PartialEq, Eq)]
pub struct Arc {
    pub from: usize,
    pub to: usize,
    /// How many of them, in parts of the chain's scale.
    pub parts: u64,
}

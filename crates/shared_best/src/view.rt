//! What a worker's place knows.
use std::collections::LinkedList;

/// What a place knows. No value of it is made; it stands in contracts alone.
pub struct View {
    /// The numbers that it claimed, in order.
    pub claims: LinkedList<u64>,
    /// The number that it saw last.
    pub seen: u64,
    /// The greatest number that it told.
    pub told: u64,
    /// Its part of the right to close the desk.
    pub share: u64,
    /// The desk's number of tasks.
    pub tasks: u64,
}

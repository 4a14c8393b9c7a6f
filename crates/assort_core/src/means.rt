//! What is handed down to a command.
use std::alloc::Global;

/// Threads, memory, and the gate that workers pass. The store goes beside it: a struct that held its borrow would cost each
/// contract a clause on that borrow.
#[derive(Drop)]
pub(crate) struct Means<'a, R, G> {
    pub(crate) rt: &'a R,
    pub(crate) alloc: Global,
    pub(crate) gate: &'a G,
}

//! What a program reads from and writes to: stores of files, sinks of bytes, and a gate that workers
//! pass.
#![tactic(auto)]

mod devices;
mod entries;
mod host;
mod loading;
mod memory;
mod pieces;
mod plans;
mod ready;
mod sinks;

pub use devices::{Failed, Gate, OpenGate, Sink, Store};
pub use host::{HostSink, HostStore};
pub use loading::{LoadFault, load};
pub use memory::MemoryStore;
pub use pieces::{PieceFault, next_piece};
pub use ready::ReadyStore;
pub use sinks::{CountSink, MemorySink};

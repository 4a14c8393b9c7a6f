//! A search for the top of a goal: nodes are divided until they clash, or their bounds or the best found close them.
#![tactic(auto)]

mod begin;
mod event;
mod goal;
mod laws;
mod pruning;
mod reaching;
mod search;
mod tasks;
mod walker;
mod worker;
mod world;

pub use begin::greedy;
pub use event::Event;
pub use goal::Goal;
pub use laws::{ended_has_top, events_keep_covered};
pub use pruning::meet;
pub use reaching::search_from;
pub use search::search_alone;
pub use tasks::tasks_of;
pub use walker::Walker;
pub use world::World;

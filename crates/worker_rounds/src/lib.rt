//! Workers that search the tasks of a goal together, in rounds.
#![tactic(auto)]

mod crew;
mod gives;
mod halves;
mod merge;
mod round;
mod together;

pub use round::work_round;
pub use together::search_together;

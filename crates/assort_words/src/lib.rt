//! The words of a command line: the request that they make, or their first refusal.
#![tactic(auto)]

mod keys;
mod request;
mod usage;
mod values;
mod words;

pub use request::Request;
pub use usage::{Command, Key, UsageCode, UsageFault};
pub use words::read_words;

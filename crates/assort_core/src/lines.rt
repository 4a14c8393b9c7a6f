//! The lines on standard error.
pub(crate) mod fault_line;
pub(crate) mod usage_line;

//! The commands, one file each.
pub(crate) mod check;
pub(crate) mod eval;
pub(crate) mod solve;
pub(crate) mod trial;

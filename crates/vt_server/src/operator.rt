//! The operator's actions, from the test of each to its message.

pub(crate) mod actions;
pub(crate) mod step;

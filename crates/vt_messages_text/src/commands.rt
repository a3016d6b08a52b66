//! The commands of implements in words.

pub(crate) mod attributes;
pub(crate) mod command;

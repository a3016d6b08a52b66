//! Lines for people about what an event can cost. docs/POOLS.md, "Why an event costs what it costs", has a sample.

pub(crate) mod lines;
pub(crate) mod parts;
pub(crate) mod way;

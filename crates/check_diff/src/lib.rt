//! The subcommand `diff` of `segyolant`: the differences of two object pools, by object, field and entry of a list.
//!
//! `run_diff` reads the two pools and prints their differences, as text or as lines of JSON. docs/POOLS.md, "Two pools", has a sample.
//!
//! Which objects differ is found in check_needs, and which of their fields in check_changes. Here lists are compared entry by entry, and
//! objects are found that only have another ID. The command line is read in check_options.
//!
//! Come here to ask what `segyolant diff` prints, and with which status it ends.
#![tactic(auto)]

mod changes;
mod comparison;
mod entry;
mod entry_changes;
mod json;
mod lines;
mod order;
mod partners;
mod program;
mod sides;
mod texts;

pub use program::run_diff;

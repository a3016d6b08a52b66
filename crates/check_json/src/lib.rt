//! Findings and warnings about a pool as lines of JSON.
//!
//! - `item_json` returns the line of an item: it reads back as the item's message with its details.
//! - `label_value` returns an object by its ID, with its kind and its name.
//! - `summary_json` returns the line of a pool's counts, and `totals_json` that of the counts of several pools.
//!
//! Lines for people are in check_text. Come here to ask which members a line of JSON of `segyolant` has.
//!
//! docs/POOLS.md, "Every fault at once", has the members.
#![tactic(auto)]

mod details;
mod lines;
mod members;
mod objects;
mod value_details;

pub use lines::{item_json, summary_json, totals_json};
pub use objects::label_value;

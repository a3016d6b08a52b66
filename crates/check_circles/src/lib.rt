//! The circles of a graph of triggers, one after the other.
//!
//! - `circles` returns the circle through the least node on any circle, then the next in the graph without the items of those
//!   nodes, until there is none.
//!
//! vt_verify makes the graph of a pool, and check_inspect reports the circles. Come here to ask which circles of macros are found.
//!
//! docs/PROFILE.md has the rules: "Triggers and circles" and "All faults". A node is a macro. Each of its macro
//! commands is a step, and an item for each event that it may raise.
#![tactic(auto)]

mod circle_search;
mod reduced_graph;

pub use circle_search::circles;

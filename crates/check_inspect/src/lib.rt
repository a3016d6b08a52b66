//! All faults of an object pool, with their positions.
//!
//! - `inspect` returns the `Inspection` of a pool's bytes: the objects in force with their records, the replaced
//!   records, each `Finding`, and a `Note` for each cause for which something was not judged. `Inspection::offset` is the
//!   index of a finding's first byte.
//!
//! The laws about the definitions are in the crate vt_tool_laws. docs/PROFILE.md, "Verification of a pool", has the rules, "Pools
//! and faults" the faults of records, and "All faults" what is found after the first of them.
//!
//! The words of a finding are in check_text. Come here to ask what is found in a pool, and at which byte.
#![tactic(auto)]

mod finding;
mod inclusions;
mod inspection;
mod macros;
mod passed;
mod references;
mod rules;
mod targets;
mod triggers;
mod working_sets;

pub use check_reading::{ObjectRecord, PassedRecord, ReplacedRecord};
pub use finding::{Finding, FindingPlace, ReferenceAt, Spot};
pub use inspection::{Inspection, Note, inspect};

/// A refused allocation.
pub use std::alloc::AllocError as OutOfMemory;

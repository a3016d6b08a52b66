//! The record of an object: its values in order, and their bytes (ISO 11783-6).
//!
//! - `values_of` lists the values of an object's record, each a `Value`.
//! - `write_object` writes the record.
//! - `laws` has the theorem that every object has a record.
//!
//! Records are read in vt_records. Come here to ask which values an object's record has, and how they are written.
//!
//! docs/PROFILE.md, "Records", has the layout of each kind.
#![tactic(auto)]

mod entry;
pub mod laws;
mod ranges;
mod value;
mod values;
mod write;

pub use value::Value;
pub use values::{Values, values_of};
pub use write::write_object;

/// The error of a failed allocation.
pub use std::alloc::AllocError as OutOfMemory;

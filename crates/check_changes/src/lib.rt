//! The fields in which two objects of one kind differ, by name.
//!
//! - `changed_fields` returns the `ChangedFields`: their names, their old and their new values, in the order of the record.
//! - `laws` has the theorems that no difference is left out, and that equal objects have none.
//!
//! Which objects of two pools differ is in check_needs. Come here to ask which fields of an object have changed.
//!
//! docs/PROFILE.md, "Objects", has the fields of each kind.
#![tactic(auto)]

mod changes;
pub mod laws;
mod names;

pub use changes::{ChangedFields, changed_fields};
pub use vt_writing::Value;

/// The error of a failed allocation.
pub use std::alloc::AllocError as OutOfMemory;

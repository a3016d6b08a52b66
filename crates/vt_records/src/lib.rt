//! Reads the record of an object (ISO 11783-6).
//!
//! - `read_record` reads the `Record` at the front of bytes, or returns its fault as a `RecordFault`, which becomes the
//!   `PoolFault` of the pool; `Reader` reads numbers from the front, and `kind_with` maps a type to its kind.
//! - `laws` has the theorem about records.
//!
//! Records are written in vt_writing, and joined to a pool in vt_pool. Come here to ask how the record of a kind is read, and which fault a
//! record has.
//!
//! docs/PROFILE.md, "Records", has the layout of each kind, and "Pools and faults" the faults.
#![tactic(auto)]

mod entry;
mod fault;
pub mod laws;
mod reader;
mod record;
mod record_fault;
mod records;

pub use fault::PoolFault;
pub use reader::Reader;
pub use record::{Record, kind_with, read_record};
pub use record_fault::RecordFault;

/// The error of a failed allocation.
pub use std::alloc::AllocError as OutOfMemory;

//! All records of an object pool that can be read, with the faults of the others.
//!
//! - `read_past_faults` returns the `PoolReading` of a pool's bytes: the objects in force with their records, the
//!   replaced records, each fault, the records that are passed over, and the index of the first unread byte. `read_pool` of vt_pool stops at the first
//!   fault.
//!
//! The rules of a whole pool are in check_inspect. Come here to ask how a pool is read past a faulty record.
//!
//! docs/PROFILE.md, "Pools and faults", has the faults of records, and "All faults" what is read after them.
#![tactic(auto)]

mod in_force;
mod passed;
mod pool_reading;
mod records;

pub use passed::PassedRecord;
pub use pool_reading::{ObjectRecord, PoolReading, ReplacedRecord, read_past_faults};

/// A refused allocation.
pub use std::alloc::AllocError as OutOfMemory;

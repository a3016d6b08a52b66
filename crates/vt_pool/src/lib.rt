//! Reads object pools (ISO 11783-6), whole or in pieces, and reports the first fault.
//!
//! - `read_pool` reads a `Pool`, or returns the first `PoolFault`; `write_object` of vt_writing writes a record.
//! - `Reading` is a pool upload in pieces.
//! - `laws` has the theorems.
//!
//! Whether the objects of a pool fit each other is decided in vt_verify. Come here to ask which objects the bytes of a pool have, and which
//! fault is the first.
//!
//! docs/PROFILE.md, "Pools and faults", has the rules, and "Records" the layout of each kind.
#![tactic(auto)]

mod arriving;
mod field_layout;
pub mod laws;
mod layouts;
mod passing;
mod pool;

pub use arriving::Reading;
pub use pool::{Pool, read_pool};
pub use std::alloc::AllocError as OutOfMemory;
pub use vt_records::PoolFault;
pub use vt_writing::write_object;

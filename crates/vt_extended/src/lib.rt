//! The extended transport protocol (ETP) of ISO 11783-3, limited to messages of 9 to 1,048,576 bytes.
//!
//! - `Receiver` processes the frames of all sources, and answers each with `Heard`: nothing, a reply, or a
//!   whole message with its `Bytes`.
//! - `laws` has theorems about the definitions in specs/.
//!
//! The terminal sends no message by it: its sender is in vt_transport. Come here to ask how a long message is received.
//!
//! docs/PROFILE.md, "Transport", has the rules. Times are in microseconds.
#![tactic(auto)]

pub mod laws;
mod messages;
mod receiver;
mod session;
mod wire;

pub use receiver::Receiver;
pub use vt_can::{Bytes, Heard};

/// A refused allocation.
pub use std::alloc::AllocError as OutOfMemory;

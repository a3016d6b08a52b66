//! The transport protocol (TP) of ISO 11783-3, for messages of 9 to 1785 bytes in packets of seven.
//!
//! - `Receiver` processes the frames of all sources, and answers each with `Heard`: nothing, a reply, or a
//!   whole message with its `Bytes`.
//! - `Sender` sends at most one message at a time to each destination. `SendFault` is the reason of a refusal.
//! - `ends_message` returns whether a frame acknowledges the end of a message that was sent.
//! - `laws` has theorems about the definitions in specs/.
//!
//! Longer messages are received by vt_extended. Come here to ask how a message in packets is received or sent, and when a session is
//! aborted.
//!
//! docs/PROFILE.md, "Transport", has the rules. Times are in microseconds.
#![tactic(auto)]

pub mod laws;
mod messages;
mod receiver;
mod sender;
mod sending;
mod session;
mod wire;

pub use receiver::Receiver;
pub use sender::{SendFault, Sender};
pub use vt_can::{Bytes, Heard};
pub use wire::ends_message;

/// A refused allocation.
pub use std::alloc::AllocError as OutOfMemory;

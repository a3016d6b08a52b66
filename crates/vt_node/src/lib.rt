//! The terminal as a node of the bus: what frames mean, claims, transport sessions, and working sets with their times (ISO
//! 11783-3, -5, -6).
//!
//! - `meaning_of` returns the `FrameMeaning` of a frame.
//! - `Node` has the claims received, the two receivers and the sender. `WatchedRegistry` has the sets, and finds one that is
//!   silent.
//! - `message_to`, `claim_from` and `technical_reply` make messages, and a `Profile` has the technical data of a terminal.
//!
//! It has no object and no pool: vt_server joins it with vt_machine. Come here to ask what a frame means for the terminal, and when a
//! working set is silent.
//!
//! docs/PROFILE.md, "Messages of address claim", "Working sets", "Silence", "Other messages", has the rules.
#![tactic(auto)]

mod bus;
mod messages;
mod node;
mod profile;
mod watch;
mod watched;

pub use bus::{FrameMeaning, meaning_of};
pub use messages::{claim_from, echo, message_to, technical_reply};
pub use node::Node;
pub use profile::{Profile, VERSION};
pub use watched::WatchedRegistry;

/// A refused allocation.
pub use std::alloc::AllocError as OutOfMemory;

//! The events that a host receives after an input of its terminal. They report the sets that registered or were closed, the ends of
//! uploads, what is shown, alarms, sounds, and texts whose end an implement did not acknowledge (ISO 11783-6).
//!
//! - A `HostEvent` is one of these events.
//! - An `Observer` looks at a terminal before an input, and reports its events after it.
//!
//! The events of an input are a function of the terminal before it, the input, what was sent, and the terminal after it with the end of the
//! upload that it reports. docs/PROFILE.md, "Events for a host", has them all.
//!
//! The calls by which a host takes them are in vt_session. Come here to ask when a host is told of something.
#![tactic(auto)]

mod event;
mod lists;
mod observer;
mod seen;
mod sounds;
mod telling;

pub use event::{Alarm, HostEvent};
pub use observer::Observer;

/// A refused allocation.
pub use std::alloc::AllocError as OutOfMemory;

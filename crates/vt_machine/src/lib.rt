//! One working set with its objects: its commands, the runs of its macros, and the operator's actions (ISO 11783-6).
//!
//! - `Live` is a working set with its objects. `apply` executes a command and returns its `Outcome`, and `raise` raises an event.
//!   `press`, `release`, `select`, `enter_number` and `enter_text` are the operator's actions; each returns `Acted` or an
//!   `OperatorRefusal`. `text_message` returns the message of a text.
//! - `Replacement` is an update that replaces objects and leaves macros and references unchanged: `Live::replacement` finds it, and
//!   `Live::replace` puts its objects in place.
//! - `laws` has the theorems about the definitions.
//!
//! It has no address and no frame: vt_server gives it the commands of one set. Come here to ask what a command or an action of the operator
//! does to a working set.
//!
//! docs/PROFILE.md, "Commands: all rows" and the section of each command, "Attributes", "Runs", "Steps", "The operator", has the rules.
#![tactic(auto)]

mod entries;
mod kept;
pub mod laws;
mod live;
mod operator;
mod replacement;
mod working_set;

pub use entries::text_message;
pub use live::{Live, Outcome};
pub use operator::{Acted, OperatorRefusal};
pub use replacement::Replacement;

/// The audio commands that a working set has done.
pub use vt_macros::{Audio, Signal};

/// A refused allocation.
pub use std::alloc::AllocError as OutOfMemory;

//! The effect of each command on the objects of a working set (ISO 11783-6), with its error byte.
//!
//! - `change` executes a command on its object, and `change_in` on a store. `execute` keeps references and chains in order:
//!   it also tests new pointer values and list items, and undoes the change on a refusal.
//! - `keeps_look` returns whether a command leaves unchanged what the text of a screen shows; `writes_unseen` returns whether
//!   it writes no field that this text shows, by the kind of its object.
//! - `laws` has the theorems about the definitions.
//!
//! Which macros a command sets off is in vt_macros. Come here to ask what a command changes, and with which bit it is refused.
//!
//! docs/PROFILE.md, "Commands: all rows" and the section of each command, "Attributes", "What every store keeps", has the rules.
#![tactic(auto)]

mod attributes;
mod changes;
mod effects;
mod error;
mod execution;
pub mod laws;
mod looks;
mod numbers;
mod pointers;
mod references;
mod replacements;

pub use changes::change;
pub use effects::change_in;
pub use execution::{execute, kind_in};
pub use looks::{keeps_look, writes_unseen};
pub use numbers::byte;

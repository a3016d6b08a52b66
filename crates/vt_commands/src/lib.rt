//! The commands of an ISOBUS virtual terminal (ISO 11783-6): their bytes, the objects and attributes in them, and the
//! events that they raise.
//!
//! - `Command` is read from its bytes; `split_command` splits the first command off the bytes of a macro.
//! - `targets` returns each `Target` in a command, `attribute` the `Attribute` with a number, and `row_events` each `Event` that a
//!   command raises, as a `Raised`.
//! - A `CommandRow` says of a command at which bytes its reply has the object and the error, what it raises, and why it may be refused.
//! - `function` has the functions of commands, and of the messages that report the operator's actions to an implement.
//! - `laws` has the theorems about the definitions.
//!
//! What a command changes is in vt_effects, and the bytes of its reply are in vt_server. Come here to ask how a command is read, at which
//! byte its reply has the object and the error, and which events it raises.
//!
//! docs/PROFILE.md has the tables: "Commands" for the bytes of the commands, "Attributes" for Change Attribute.
#![tactic(auto)]

mod attributes;
mod command;
mod event;
pub mod laws;
mod pieces;
mod raising;
mod row;
mod target;

pub use attributes::attribute;
pub use command::Command;
pub use event::Event;
pub use pieces::split_command;
pub use raising::{Raised, row_events};
pub use row::{CommandRow, Raises, function};
pub use target::{Target, targets};

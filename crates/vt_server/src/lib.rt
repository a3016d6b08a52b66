//! The terminal: working sets by address, one step for each input (ISO 11783-5, ISO 11783-6).
//!
//! - `Terminal` takes each `Input`, a frame or an action of the operator, and appends each `Output`, a frame or an
//!   `OperatorFault`. A run of inputs ends with a `RunFault` at the first refusal of memory.
//! - `Terminal::tick` advances the time without a frame, and `Terminal::next_deadline` returns the first time at which that
//!   does more. A `Profile` has the technical data of the terminal.
//! - `laws` has the invariants of every terminal; the laws about its steps are in vt_laws.
//!
//! It reads no log and no file, and has no clock: time is an argument. Come here to ask what the terminal does with an input.
//!
//! docs/PROFILE.md, "The step", has the rules.
#![tactic(auto)]

mod clock;
mod frame;
mod held_pool;
mod held_upload;
mod input;
pub mod laws;
mod message;
mod operator;
mod output;
mod pools;
mod sets;
mod shown;
mod terminal;
mod upload_end;

pub use input::Input;
pub use output::{OperatorFault, Output};
pub use sets::Progress;
pub use shown::ShownMasks;
pub use terminal::{RunFault, Terminal};
pub use upload_end::{BrokenRule, UploadEnd};
pub use vt_machine::OperatorRefusal;
pub use vt_node::Profile;

/// The error of a refused allocation.
pub use std::alloc::AllocError as OutOfMemory;

//! What an input dialog needs: its limits, its text, and the raw value of a typed number (ISO 11783-6).
//!
//! - `limits_of` returns the `InputLimits` of an input.
//! - `write_text` appends the text of a number or a string as the terminal shows it.
//! - `typed_of` reads a `Typed` number from its text, and `raw_of` returns its exact raw value.
//! - `laws` has the theorem that the limits are those of the terminal, and the theorem that a typed number has one raw value at most.
//!
//! Whether a value is accepted is decided in vt_machine. Come here to ask which numbers an input takes, and how its text looks.
#![tactic(auto)]

pub mod laws;
mod limits;
mod texts;
mod typed;
mod typed_text;

pub use limits::{InputLimits, limits_of};
pub use texts::write_text;
pub use typed::{Typed, raw_of};
pub use typed_text::typed_of;

/// A refused allocation.
pub use std::alloc::AllocError as OutOfMemory;

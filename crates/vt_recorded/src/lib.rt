//! Lines of logs as other recorders write them.
//!
//! - `Reader` reads a line as `vt_can::parse_line` does. If the line does not have that form, it reads the frame in the line's plain form:
//!   single spaces around the interface, whose name `candump` may pad, and joined bytes in place of `18EEFF80   [2]  01 02`.
//! - `interface_in` is the name of the interface in a line, and `is_of_interface` chooses the lines of one.
//! - `form_of` says what a file of another recorder is, and how to convert it into a log. A `Hint`
//!   is the likely cause of a line's fault, and a `LineHint` says at which line. A `Survey` counts the faults of a log.
//! - `laws` has a theorem about the definitions in specs/: the reading of a line is unique.
//!
//! It gives no line to a terminal. Come here to ask which lines can be read, and why one cannot.
//!
//! docs/PROFILE.md, "Lines of other recorders", has the forms.
#![tactic(auto)]

mod forms;
mod hints;
mod interfaces;
pub mod laws;
mod plain;
mod reader;
mod survey;
mod words;

pub use forms::form_of;
pub use hints::{Hint, LineHint, hint_of};
pub use interfaces::{interface_in, is_of_interface};
pub use reader::Reader;
pub use survey::Survey;

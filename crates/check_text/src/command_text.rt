//! A command of a macro in words.

use std::fmt;
use vt_commands::CommandRow;

/// A command of a macro, such as `Hide/Show Object (A0) at byte 8`, or `command 77 at byte 8` if no command has this function.
#[derive(Clone, Copy, Drop)]
pub struct CommandText {
    /// The offset in the bytes of the macro.
    pub at: usize,
    /// The function.
    pub function: u8,
}

impl fmt::Display for CommandText {
    fn fmt<W: fmt::Write>(&self, f: &mut fmt::Formatter<W>) -> fmt::Result {
        let CommandText { at, function } = *self;
        match CommandRow::of(function) {
            Some(row) => write!(f, "{} ({function:02X}) at byte {at}", row.name),
            None => write!(f, "command {function:02X} at byte {at}"),
        }
    }
}

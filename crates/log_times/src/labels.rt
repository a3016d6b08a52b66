//! Functions and parameter groups in words, and as members of a line of JSON.

use std::alloc::AllocError;
use std::fmt;
use vt_cli::JsonLine;
use vt_frames_text::{HexByte, function_name};

/// A function by its number in hex, and its name if it is known, such as `A0 Hide/Show Object`.
#[derive(Clone, Copy, Drop)]
pub struct FunctionLabel(pub u8);

impl fmt::Display for FunctionLabel {
    fn fmt<W: fmt::Write>(&self, f: &mut fmt::Formatter<W>) -> fmt::Result {
        let number = HexByte(self.0);
        match function_name(self.0) {
            Some(name) => write!(f, "{number} {name}"),
            None => write!(f, "{number}"),
        }
    }
}

/// Adds a member with the number of a parameter group in hex to a line.
pub fn put_group(line: &mut JsonLine, pgn: u32) -> Result<(), AllocError> {
    line.put_text("group", format_args!("{pgn:04X}"))
}

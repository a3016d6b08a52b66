//! How messages look.

use crate::colour::ColouredLine;
use crate::message::ItemLine;
use std::io::{self, Write};

/// How messages look.
#[derive(Clone, Copy, PartialEq, Eq)]
pub enum MessageStyle {
    /// Text without colours, for files and other programs.
    Plain,
    /// Lines for people in colours, for a terminal.
    Coloured,
}

/// Writes a message as its line for people.
pub fn put_message<W: Write>(
    message: &ItemLine<'_>,
    style: MessageStyle,
    out: &mut W,
) -> io::Result<()> {
    match style {
        MessageStyle::Plain => writeln!(out, "{message}"),
        MessageStyle::Coloured => writeln!(out, "{}", ColouredLine { message }),
    }
}

//! Reading of a log line.

ghost use Rattle.std.specs.Prelude.{◌↔◌, IsTrue};
ghost use Rattle.vt_can.specs.lines.Readings.{reading_of};
ghost use Rattle.vt_can.specs.lines.Line.{IsContent, IsComment, IsRead, ReadsAs};

use crate::frames::Frame;
use crate::lines::action::action;
use crate::lines::fields::{shape_of, time_of};
use crate::lines::frame_line::read_frame_line;
use crate::lines::usual::usual_frame;
use thiserror::Error;

/// A log line that has been read.
#[derive(Drop)]
pub enum Line<'a> {
    /// A frame, and its time in microseconds.
    Frame { time: u64, frame: Frame },
    /// An action of the operator.
    Operator(Action<'a>),
    /// A frame to be ignored.
    Skipped(Skipped),
    /// A comment: an empty line, or a line that begins with `#`.
    Comment,
}

/// An action of the operator. The first number is the ID of an object; in `Set` it is the address of a working set.
#[derive(Clone, Copy, PartialEq, Eq)]
pub enum Action<'a> {
    /// Presses a key or button.
    Press(u16),
    /// Releases a key or button.
    Release(u16),
    /// Selects an input.
    Select(u16),
    /// Enters a number into an input.
    Number(u16, u32),
    /// Enters a text into an input.
    Text(u16, &'a [u8]),
    /// Selects the working set of an address.
    Set(u8),
}

/// Why a frame is ignored.
#[derive(Clone, Copy, PartialEq, Eq)]
pub enum Skipped {
    /// A remote frame, which requests data and has none.
    Remote,
    /// A CAN FD frame.
    Fd,
    /// An identifier of three digits, as for 11 bits.
    Short,
    /// An identifier above 1FFFFFFF, as in an error frame.
    Error,
}

/// Why a line cannot be read. The number of a fault is its position here, from 1.
#[derive(Clone, Copy, Debug, PartialEq, Eq, Error)]
pub enum LineFault {
    /// The line does not begin with `(seconds.fraction)`.
    #[error("the line does not begin with a time, as (1.000000)")]
    Time = 1,
    /// The rest after the time is not ` interface ID#DATA`, with at most ` R` or ` T` at the end.
    #[error("the rest after the time is not of the form can0 14E72680#A064, with at most R or T behind it")]
    Shape,
    /// The ID or the data is not written in hex digits, two for each byte.
    #[error("the ID or the data is not written in hex digits, two for each byte")]
    Hex,
    /// There are more than eight bytes of data.
    #[error("the frame has more than eight bytes of data")]
    Length,
    /// The line begins with `! `, but does not have the form of an action.
    #[error("the line has none of the forms ! press ID, ! release ID, ! select ID, ! number ID N, ! text ID TEXT and ! set AA (ID 0 to 65534, N 0 to 4294967295, AA two hex digits)")]
    Operator,
}

/// Reads a line, given without its newline. One carriage return at its end is dropped.
pub fn parse_line(line: &[u8]) -> Result<Line<'_>, LineFault>
    ensures { ReadsAs line.now (reading_of result) }
{
    let content = content_of(line);
    match usual_frame(content) {
        Some((time, frame)) => Ok(Line::Frame { time, frame }),
        None => read_content(content),
    }
}

// Reads the content of a line in any form.
fn read_content(content: &[u8]) -> Result<Line<'_>, LineFault>
    ensures { IsRead content.now (reading_of result) }
{
    if is_comment(content) {
        return Ok(Line::Comment);
    }
    if let Some(rest) = content.strip_prefix(b"! ") {
        let Some(action) = action(rest) else {
            return Err(LineFault::Operator);
        };
        return Ok(Line::Operator(action));
    }
    let Some((time, rest)) = time_of(content) else {
        return Err(LineFault::Time);
    };
    let Some((id, text)) = shape_of(rest) else {
        return Err(LineFault::Shape);
    };
    read_frame_line(time, id, text)
}

// The line without one carriage return at its end.
fn content_of(line: &[u8]) -> &[u8]
    ensures { IsContent line.now result.now }
{
    match line {
        [content @ .., b'\r'] => content,
        _ => line,
    }
}

// Whether a line is empty or begins with a number sign.
fn is_comment(content: &[u8]) -> bool
    ensures { IsTrue result ↔ IsComment content.now }
{
    matches!(content, [] | [b'#', ..])
}

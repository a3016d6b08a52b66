//! Reads lines.

ghost use Rattle.std.specs.Prelude.{◌≡◌, IfOk};
ghost use Rattle.vt_can.specs.lines.Line.{IsContent};
ghost use Rattle.vt_can.specs.lines.Readings.{reading_of};
ghost use Rattle.vt_recorded.specs.Readings.{is_of_form, is_of_frame, IsReadingOf};

use crate::plain::put_plain_form;
use std::alloc::{AllocError, Global};
use vt_can::{Line, LineFault, parse_line};

/// Reads lines that some recorder wrote.
#[derive(Drop)]
pub struct Reader {
    plain: Vec<u8>,
}

impl Reader {
    /// A reader. Does not allocate.
    pub fn new(alloc: Global) -> Reader {
        Reader {
            plain: Vec::new(alloc),
        }
    }

    /// The plain form of the line that was read last. Empty if that line needed none.
    pub fn plain(&self) -> &[u8] {
        &self.plain
    }

    /// Reads a line, given without its newline. The fault in the inner result is that of the line itself, not that of its plain
    /// form. After `OutOfMemory` the reader can be used again.
    #[inline]
    pub fn read<'a>(&'a mut self, line: &'a [u8]) -> Result<Result<Line<'a>, LineFault>, AllocError>
        ensures { IfOk result (λ reading. IsReadingOf line.now (reading_of reading)) }
    {
        self.plain.clear();
        let reading = parse_line(line);
        if is_of_form(&reading) {
            return Ok(reading);
        }
        put_plain_form(content_of(line), &mut self.plain)?;
        let plain = parse_line(&self.plain);
        if is_of_frame(&plain) {
            return Ok(plain);
        }
        Ok(reading)
    }
}

/// A line without one carriage return at its end.
fn content_of(line: &[u8]) -> &[u8]
    ensures { IsContent line.now result.now }
{
    match line {
        [content @ .., b'\r'] => content,
        _ => line,
    }
}

/// Whether a frame was read, or a frame to be ignored.
fn is_of_frame(reading: &Result<Line<'_>, LineFault>) -> bool
    ensures { result ≡ is_of_frame (reading_of reading.now) }
{
    matches!(reading, Ok(Line::Frame { .. } | Line::Skipped(_)))
}

/// Whether a reading is kept: it has no fault, or another fault than that of the time or of the shape.
fn is_of_form(reading: &Result<Line<'_>, LineFault>) -> bool
    ensures { result ≡ is_of_form (reading_of reading.now) }
{
    match reading {
        Err(LineFault::Time | LineFault::Shape) => false,
        Ok(_) | Err(LineFault::Hex | LineFault::Length | LineFault::Operator) => true,
    }
}

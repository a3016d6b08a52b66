//! The trace of a line as an object of JSON.

use serde_json::Value;
use std::alloc::{AllocError, Global};
use std::io::{self, Write};
use vt_can::assigned::GLOBAL_ADDRESS;
use vt_can::{Frame, Line, LineFault, write_frame};
use vt_cli::{Cell, JsonLine};

/// The front of an output in a trace.
const OUTPUT: &[u8] = b"    ";

/// The front of a line that the screen has no more.
const REMOVED: &[u8] = b"  - ";

/// The front of a line that the screen has now.
const ADDED: &[u8] = b"  + ";

/// The front of an output that refuses an action of the operator.
const REFUSAL: &[u8] = b"operator ";

/// What is between an output and its words.
const BETWEEN: &[u8] = b"  ";

/// The lines of the trace of a line of a log.
#[derive(Drop)]
pub(crate) struct TracedLine<'a> {
    alloc: Global,
    /// The number of the line in the log.
    number: u64,
    /// The latest time so far, in microseconds.
    now: u64,
    /// The lines of the trace. The first says what the line of the log holds.
    lines: Vec<&'a [u8]>,
}

impl<'a> TracedLine<'a> {
    /// The trace of the line with this number. `now` is the latest time so far.
    pub(crate) fn new(
        alloc: Global,
        number: u64,
        now: u64,
        text: &'a [u8],
    ) -> Result<TracedLine<'a>, AllocError> {
        let lines = text.split(|byte| *byte == b'\n').collect(alloc)?;
        Ok(TracedLine {
            alloc,
            number,
            now,
            lines,
        })
    }

    /// Writes the trace as a line of JSON.
    pub(crate) fn write<W: Write>(
        &self,
        reading: &Result<Line<'_>, LineFault>,
        out: &mut W,
    ) -> io::Result<()> {
        let mut line = JsonLine::new(self.alloc);
        line.put("added", self.screen_lines(ADDED)?)?;
        match reading {
            Ok(Line::Frame { time, frame }) => self.put_frame(*time, frame, &mut line)?,
            Ok(Line::Operator(_)) => self.put_other("operator", &mut line)?,
            Ok(Line::Skipped(_) | Line::Comment) | Err(_) => self.put_other("other", &mut line)?,
        }
        line.put_number("line", self.number)?;
        line.put("outputs", self.outputs()?)?;
        line.put("removed", self.screen_lines(REMOVED)?)?;
        line.write(out)
    }

    /// Adds the members of a line with a frame.
    fn put_frame(&self, time: u64, frame: &Frame, line: &mut JsonLine) -> Result<(), AllocError> {
        let destination = frame.id.destination().unwrap_or(GLOBAL_ADDRESS);
        line.put_all(&[
            ("destination", Cell::Hex(destination)),
            ("kind", Cell::Text("frame")),
            ("source", Cell::Hex(frame.id.source())),
            ("time", Cell::Number(time)),
        ])?;
        line.put_bytes_if("frame", Some(&write_frame(frame)))?;
        // The time is in front of the words.
        line.put_bytes_if("words", Some(behind_space(self.head())))
    }

    /// Adds the members of a line without a frame. Its time is the latest one so far.
    fn put_other(&self, kind: &str, line: &mut JsonLine) -> Result<(), AllocError> {
        line.put_all(&[
            ("destination", Cell::Null),
            ("frame", Cell::Null),
            ("kind", Cell::Text(kind)),
            ("source", Cell::Null),
            ("time", Cell::Number(self.now)),
        ])?;
        line.put_bytes_if("words", Some(self.head()))
    }

    /// The first line of the trace, without the number in front of it.
    fn head(&self) -> &[u8] {
        match self.lines.first() {
            Some(head) => behind_space(head),
            None => &[],
        }
    }

    /// What the terminal sends at the line.
    fn outputs(&self) -> Result<Value, AllocError> {
        let mut outputs = Vec::new(self.alloc);
        for line in self.lines.iter() {
            if let Some(output) = line.strip_prefix(OUTPUT) {
                outputs.push(self.output(output)?)?;
            }
        }
        Ok(Value::Array(outputs))
    }

    /// An output with its words: a frame, or the refusal of an action of the operator.
    fn output(&self, output: &[u8]) -> Result<Value, AllocError> {
        let (sent, words) = cut(output);
        let refusal = sent.strip_prefix(REFUSAL);
        let frame = refusal.is_none().then_some(sent);
        let mut value = JsonLine::new(self.alloc);
        value.put_bytes_if("frame", frame)?;
        value.put_bytes_if("refusal", refusal)?;
        value.put_bytes_if("words", Some(words))?;
        Ok(value.into_value())
    }

    /// The lines of the screen that have this front in the trace.
    fn screen_lines(&self, front: &[u8]) -> Result<Value, AllocError> {
        let mut values = Vec::new(self.alloc);
        for line in self.lines.iter() {
            if let Some(line) = line.strip_prefix(front) {
                let line = String::from_utf8_lossy(self.alloc, line)?;
                values.push(Value::String(line))?;
            }
        }
        Ok(Value::Array(values))
    }
}

/// What is behind the first space of a text.
fn behind_space(text: &[u8]) -> &[u8] {
    let space = text.iter().position(|byte| *byte == b' ');
    let rest = space.and_then(|space| text.get(space..));
    rest.and_then(|rest| rest.strip_prefix(b" ")).unwrap_or(&[])
}

/// An output, and the words behind it.
fn cut(output: &[u8]) -> (&[u8], &[u8]) {
    let end = output.windows(BETWEEN.len()).position(|two| two == BETWEEN);
    let (sent, rest) = output.split_at(end.unwrap_or(output.len()));
    (sent, rest.strip_prefix(BETWEEN).unwrap_or(rest))
}

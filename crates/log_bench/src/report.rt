//! The reports of a test, as text and as lines of JSON.

use crate::outcome::LogOutcome;
use log_expect::{LineDifference, line_fits};
use log_options::Format;
use serde_json::Value;
use std::alloc::{AllocError, Global};
use std::fmt;
use std::io::{self, Write};
use vt_cli::JsonLine;

/// Writes each line of a log that differs.
pub(crate) fn put_differences<W: Write>(
    alloc: Global,
    format: Format,
    path: &str,
    differences: &[LineDifference],
    out: &mut W,
) -> io::Result<()> {
    for difference in differences {
        let changed = Changed::of(alloc, difference)?;
        match format {
            Format::Text => put_difference(path, difference.line, &changed, out)?,
            Format::Json => difference_line(alloc, path, difference.line, &changed)?.write(out)?,
        }
    }
    Ok(())
}

/// Writes what became of a log. For people nothing is written of one that is not judged: the error output says why.
pub(crate) fn put_outcome<W: Write>(
    alloc: Global,
    format: Format,
    path: &str,
    outcome: LogOutcome,
    out: &mut W,
) -> io::Result<()> {
    match (format, outcome) {
        (Format::Json, _) => outcome_line(alloc, path, outcome)?.write(out),
        (Format::Text, LogOutcome::NotJudged) => Ok(()),
        (Format::Text, LogOutcome::Differs(count)) => writeln!(
            out,
            "{path}: {}",
            Differing { count }
        ),
        (Format::Text, _) => writeln!(out, "{path}: {}", outcome.word()),
    }
}

/// How many lines differ, in words.
#[derive(Clone, Copy, Drop)]
pub(crate) struct Differing {
    /// The number of lines.
    pub count: usize,
}

impl fmt::Display for Differing {
    fn fmt<W: fmt::Write>(&self, f: &mut fmt::Formatter<W>) -> fmt::Result {
        let verb = if self.count == 1 { "differs" } else { "differ" };
        write!(f, "{} of its lines {verb}", self.count)
    }
}

/// Writes a difference for people.
fn put_difference<W: Write>(
    path: &str,
    line: u64,
    changed: &Changed<'_>,
    out: &mut W,
) -> io::Result<()> {
    match line {
        0 => writeln!(out, "{path}: the first screen differs")?,
        line => writeln!(out, "{path}:{line}: prints something else than is expected")?,
    }
    put_marked(b"  - ", &changed.expected, out)?;
    put_marked(b"  + ", &changed.printed, out)
}

/// Writes lines, each behind a mark.
fn put_marked<W: Write>(mark: &[u8], lines: &[&[u8]], out: &mut W) -> io::Result<()> {
    for line in lines {
        out.write_all(mark)?;
        out.write_all(line)?;
    }
    Ok(())
}

/// The line of JSON of a difference.
fn difference_line(
    alloc: Global,
    path: &str,
    line: u64,
    changed: &Changed<'_>,
) -> Result<JsonLine, AllocError> {
    let mut json = JsonLine::new(alloc);
    json.put_text("kind", "difference")?;
    json.put_text("log", path)?;
    json.put_number("line", line)?;
    json.put("expected", texts_in(alloc, &changed.expected)?)?;
    json.put("printed", texts_in(alloc, &changed.printed)?)?;
    Ok(json)
}

/// Lines without their newlines, as a list of JSON. Bytes that are no UTF-8 are replaced.
fn texts_in(alloc: Global, lines: &[&[u8]]) -> Result<Value, AllocError> {
    let mut texts = Vec::new(alloc);
    for line in lines {
        let line = line.strip_suffix(b"\n").unwrap_or(line);
        texts.push(Value::String(String::from_utf8_lossy(alloc, line)?))?;
    }
    Ok(Value::Array(texts))
}

/// The line of JSON of what became of a log.
fn outcome_line(alloc: Global, path: &str, outcome: LogOutcome) -> Result<JsonLine, AllocError> {
    let mut json = JsonLine::new(alloc);
    json.put_text("kind", "log")?;
    json.put_text("log", path)?;
    json.put_text("result", outcome.word())?;
    json.put_number("differences", outcome.differences() as u64)?;
    Ok(json)
}

/// The lines of an expected text and of a printed one, each with its newline, without those at the front and at the end that fit.
#[derive(Drop)]
struct Changed<'a> {
    expected: Vec<&'a [u8]>,
    printed: Vec<&'a [u8]>,
}

impl<'a> Changed<'a> {
    /// The lines of a difference.
    fn of(alloc: Global, difference: &'a LineDifference) -> Result<Changed<'a>, AllocError> {
        let expected = lines_in(alloc, &difference.expected)?;
        let printed = lines_in(alloc, &difference.printed)?;
        let wildcards = difference.wildcards.as_slice();
        let triples = expected.iter().zip(wildcards).zip(printed.iter());
        let fitting = triples.take_while(|((line, wild), other)| line_fits(line, **wild, other));
        let front = fitting.count();
        let lines = expected.get(front..).unwrap_or(&[]).iter().rev();
        let wildcards = wildcards.get(front..).unwrap_or(&[]).iter().rev();
        let others = printed.get(front..).unwrap_or(&[]).iter().rev();
        let triples = lines.zip(wildcards).zip(others);
        let fitting = triples.take_while(|((line, wild), other)| line_fits(line, **wild, other));
        let back = fitting.count();
        Ok(Changed {
            expected: middle(alloc, &expected, front, back)?,
            printed: middle(alloc, &printed, front, back)?,
        })
    }
}

/// The lines of a text, each with its newline.
fn lines_in(alloc: Global, text: &[u8]) -> Result<Vec<&[u8]>, AllocError> {
    text.split_inclusive(|byte| *byte == b'\n').collect(alloc)
}

/// Lines without some at the front and at the end.
fn middle<'a>(
    alloc: Global,
    lines: &[&'a [u8]],
    front: usize,
    back: usize,
) -> Result<Vec<&'a [u8]>, AllocError> {
    let end = lines.len().saturating_sub(back);
    Vec::from_slice(alloc, lines.get(front..end).unwrap_or(&[]))
}

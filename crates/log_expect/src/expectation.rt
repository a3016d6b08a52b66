//! Expectations in a log.

ghost use Rattle.std.specs.Prelude.{◌≡◌, ◌<◌, ◌++◌, ◌∷◌, [], length, map, MatchOption, IfSome, OnOk, IfOk};
ghost use Rattle.log_expect.specs.Expectations.{is_expectation, pattern_in, expected_line, expected_by};
ghost use Rattle.log_expect.specs.Patterns.{fits, byte_fits, pattern_of, shown_byte, wildcard_or_byte, FitsNever, LeavesRest};
ghost use Rattle.vt_logs.specs.Lines.{lines_of};

#[cfg(test)]
mod tests;

use memchr::memchr;
use std::alloc::{AllocError, Global};

/// The front of an expectation.
const FRONT: &[u8] = b"#<";

/// The front of an expectation with wildcards.
const WILDCARD_FRONT: &[u8] = b"#<?";

/// The byte that stands for any byte in an expectation with wildcards.
const WILDCARD: u8 = b'?';

/// Whether a line is an expectation.
pub(crate) fn is_expectation(line: &[u8]) -> bool
    ensures { result ≡ is_expectation line.now }
{
    line.starts_with(FRONT)
}

/// The first line of a text, and the text after it. `None` if there is no line.
pub(crate) fn next_line(text: &[u8]) -> Option<(&[u8], &[u8])>
    ensures lines { MatchOption result (text.now ≡ []) (λ cut. lines_of text.now ≡ cut.0.now ∷ lines_of cut.1.now) }
    ensures shorter { IfSome result (λ cut. length cut.1.now < length text.now) }
{
    if text.is_empty() {
        return None;
    }
    match memchr(b'\n', text) {
        Some(end) => Some((&text[..end], &text[end + 1..])),
        None => Some((text, &[])),
    }
}

/// The line of text that an expectation stands for, and whether each `?` in it stands for any byte.
fn expected_in(line: &[u8]) -> (&[u8], bool)
    ensures { pattern_in line.now ≡ pattern_of result.1 result.0.now }
{
    let has_wildcards = line.starts_with(WILDCARD_FRONT);
    let front = if has_wildcards {
        WILDCARD_FRONT.len()
    } else {
        FRONT.len()
    };
    let text = line.get(front..).unwrap_or(&[]);
    (text.strip_prefix(b" ").unwrap_or(text), has_wildcards)
}

/// Whether a printed text fits the expectations at the front of a text.
pub(crate) fn fits(text: &[u8], printed: &[u8]) -> bool
    ensures { result ≡ fits (expected_by (lines_of text.now)) printed.now }
{
    let mut rest = text;
    let mut left = printed;
    while let Some((line, after)) = next_line(rest) {
        if !is_expectation(line) {
            break;
        }
        let Some(behind) = after_expected(line, left) else {
            return false;
        };
        left = behind;
        rest = after;
    }
    left.is_empty()
}

/// A printed text behind its first line, if that fits an expectation.
fn after_expected<'a>(line: &[u8], printed: &'a [u8]) -> Option<&'a [u8]>
    ensures { MatchOption result (FitsNever (expected_line line.now) printed.now) (λ rest. LeavesRest (expected_line line.now) printed.now rest.now) }
{
    let (text, has_wildcards) = expected_in(line);
    let (first, rest) = printed.split_at_checked(text.len())?;
    if !line_fits(text, has_wildcards, first) {
        return None;
    }
    rest.strip_prefix(b"\n")
}

/// Whether a printed line fits the line that is expected.
pub fn line_fits(expected: &[u8], has_wildcards: bool, line: &[u8]) -> bool
    ensures { result ≡ fits (pattern_of has_wildcards expected.now) line.now }
{
    if !has_wildcards {
        return expected == line;
    }
    let mut left = line;
    for expected in expected {
        let Some((byte, behind)) = left.split_first() else {
            return false;
        };
        if !byte_fits(*expected, *byte) {
            return false;
        }
        left = behind;
    }
    left.is_empty()
}

/// Whether a printed byte fits a byte of an expectation with wildcards.
fn byte_fits(expected: u8, byte: u8) -> bool
    ensures { result ≡ byte_fits (wildcard_or_byte expected) byte }
{
    if expected == WILDCARD {
        byte != b'\n'
    } else {
        expected == byte
    }
}

/// What the expectations at the front of a text stand for, as people see it.
pub(crate) fn expected_by(alloc: Global, text: &[u8]) -> Result<Vec<u8>, AllocError>
    ensures { IfOk result (λ expected. expected.items ≡ map shown_byte (expected_by (lines_of text.now))) }
{
    let mut expected = Vec::new(alloc);
    let mut rest = text;
    while let Some((line, after)) = next_line(rest) {
        if !is_expectation(line) {
            break;
        }
        put_expected(line, &mut expected)?;
        rest = after;
    }
    Ok(expected)
}

/// Appends the line that an expectation stands for.
fn put_expected(line: &[u8], expected: &mut Vec<u8>) -> Result<(), AllocError>
    ensures { OnOk result (expected.new.items ≡ expected.old.items ++ map shown_byte (expected_line line.now)) }
{
    let (text, _) = expected_in(line);
    expected.extend_from_slice(text)?;
    expected.push(b'\n')?;
    Ok(())
}

/// Whether each of the expectations at the front of a text has wildcards.
pub(crate) fn wildcards_by(alloc: Global, text: &[u8]) -> Result<Vec<bool>, AllocError> {
    let mut wildcards = Vec::new(alloc);
    let mut rest = text;
    while let Some((line, after)) = next_line(rest) {
        if !is_expectation(line) {
            break;
        }
        wildcards.push(expected_in(line).1)?;
        rest = after;
    }
    Ok(wildcards)
}

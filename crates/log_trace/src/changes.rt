//! The changes of a screen, as a difference of its lines.

ghost use Rattle.std.specs.Prelude.{◌≡◌, ◌++◌, ◌≤◌, false, IfOk, OnOk, MatchOption, drop, length, map};
ghost use Rattle.std.specs.Set.{is_member};
ghost use Rattle.std.specs.Str.{bytes_eq};
ghost use Rattle.log_trace.specs.Changes.{AreChanges, AreLastPlaces, AreScreenChanges, IsNext, lines_in, marked};
ghost use Rattle.log_trace.specs.Lines.{Gains};

use crate::lines::put_line;
use std::alloc::{AllocError, Global};
use std::collections::BTreeMap;

/// Appends the changes from an old screen to a new one. The first line of the new screen that the old one has too is kept: the old
/// lines before it are written behind `  - `, and then the new lines before it behind `  + `. The lines behind it are treated in the
/// same way.
///
/// A screen is read once, so the time grows with its lines and the logarithm of their number.
pub(crate) fn put_changes(
    alloc: Global,
    old: &[u8],
    new: &[u8],
    text: &mut Vec<u8>,
) -> Result<(), AllocError>
    ensures { OnOk result (Gains (AreScreenChanges old.now new.now) text.old.items text.new.items) }
{
    let old = lines_in(alloc, old)?;
    let new = lines_in(alloc, new)?;
    let last = last_places(alloc, &old)?;
    put_difference(&old, &new, &last, text)
}

/// The lines of a screen.
fn lines_in(alloc: Global, screen: &[u8]) -> Result<Vec<&[u8]>, AllocError>
    ensures { IfOk result (λ lines. map (λ line. line.now) lines.items ≡ lines_in screen.now) }
{
    screen.split(|byte| *byte == b'\n').collect(alloc)
}

/// Each line with the last of its places.
fn last_places<'a>(
    alloc: Global,
    lines: &[&'a [u8]],
) -> Result<BTreeMap<&'a [u8], usize>, AllocError>
    ensures { IfOk result (λ last. AreLastPlaces (map (λ line. line.now) lines.now) last) }
{
    let mut last = BTreeMap::new(alloc);
    for (place, line) in lines.iter().enumerate() {
        last.insert(*line, place)?;
    }
    Ok(last)
}

/// Appends the changes from some lines to others.
fn put_difference<'a>(
    old: &[&'a [u8]],
    new: &[&'a [u8]],
    last: &BTreeMap<&'a [u8], usize>,
    text: &mut Vec<u8>,
) -> Result<(), AllocError>
    requires { AreLastPlaces (map (λ line. line.now) old.now) last.now }
    ensures { OnOk result (Gains (AreChanges (map (λ line. line.now) old.now) (map (λ line. line.now) new.now)) text.old.items text.new.items) }
{
    // The first lines of which the text says nothing yet.
    let mut gone = 0;
    let mut come = 0;
    for (place, line) in new.iter().enumerate() {
        if let Some(before) = next_place(old, gone, last, line) {
            put_marked(b"  - ", &old[gone..gone + before], text)?;
            put_marked(b"  + ", &new[come..place], text)?;
            gone += before + 1;
            come = place + 1;
        }
    }
    put_marked(b"  - ", &old[gone..], text)?;
    put_marked(b"  + ", &new[come..], text)
}

/// How many lines from a place on are before the next that is equal to a line, or `None` if none is. Does not read the lines if the
/// last equal one is before that place.
fn next_place<'a>(
    lines: &[&'a [u8]],
    from: usize,
    last: &BTreeMap<&'a [u8], usize>,
    line: &'a [u8],
) -> Option<usize>
    requires known { AreLastPlaces (map (λ line. line.now) lines.now) last.now }
    requires within { from ≤ length lines.now }
    ensures { MatchOption result (is_member bytes_eq (drop from (map (λ line. line.now) lines.now)) line.now ≡ false)
        (IsNext line.now (drop from (map (λ line. line.now) lines.now))) }
{
    match last.get(line) {
        Some(place) if *place >= from => lines[from..].iter().position(|other| *other == line),
        _ => None,
    }
}

/// Appends lines, each behind a mark.
fn put_marked(mark: &[u8], lines: &[&[u8]], text: &mut Vec<u8>) -> Result<(), AllocError>
    ensures { OnOk result (text.new.items ≡ text.old.items ++ marked mark.now (map (λ line. line.now) lines.now)) }
{
    for line in lines {
        put_line(mark, line, text)?;
    }
    Ok(())
}

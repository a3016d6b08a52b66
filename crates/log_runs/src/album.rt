//! The screens of a log with their pictures, as lines of JSON.

use crate::screens::Screens;
use log_options::LineRange;
use log_replay::{Messages, Replay, ReplayPass, Turn};
use std::alloc::{AllocError, Global};
use std::collections::BTreeMap;
use std::io::{self, Write};
use vt_can::{Line, LineFault};
use vt_cli::{Cell, JsonLine, Open};

/// Writes a line of JSON for the screen at the beginning of a range of lines, and for each line of the range that changed its text. A
/// picture has a line of its own before its first use. No more than `most` pictures are written. Returns how many screens are left out
/// because of that.
pub fn put_screens<F: Open, W: Write, E: Messages>(
    alloc: Global,
    replay: &Replay<'_>,
    range: LineRange,
    most: usize,
    files: &mut F,
    out: &mut W,
    errors: &mut E,
) -> io::Result<u64> {
    let mut album = Album {
        alloc,
        range,
        most,
        screens: Screens::new(alloc, replay.terminal()?),
        now: 0,
        has_begun: false,
        pictures: BTreeMap::new(alloc),
        left_out: 0,
    };
    if range.from.is_none() {
        album.screens.note()?;
        album.put_screen(0, out)?;
        album.has_begun = true;
    }
    replay.pass(&mut album, files, out, errors)?;
    Ok(album.left_out)
}

/// The screens so far.
#[derive(Drop)]
struct Album {
    alloc: Global,
    range: LineRange,
    /// The most pictures that are written.
    most: usize,
    screens: Screens,
    /// The latest time so far, in microseconds.
    now: u64,
    /// Whether the first screen of the range is written.
    has_begun: bool,
    /// The pictures that are written, by their numbers.
    pictures: BTreeMap<Vec<u8>, usize>,
    /// How many screens are left out.
    left_out: u64,
}

impl<F, W: Write, E> ReplayPass<F, W, E> for Album {
    /// Gives the input of a line to the terminal, and writes the screen if the line is the first of the range or changes its text.
    fn line(
        &mut self,
        number: u64,
        turn: Turn,
        reading: Result<Line<'_>, LineFault>,
        _files: &mut F,
        out: &mut W,
        _errors: &mut E,
    ) -> io::Result<()> {
        if let Ok(Line::Frame { time, .. }) = &reading {
            self.now = self.now.max(*time);
        }
        let is_taken = self.screens.take(turn, reading)?;
        if !self.range.has(number, self.now) {
            return Ok(());
        }
        if !self.has_begun {
            self.has_begun = true;
            self.screens.note()?;
            return self.put_screen(number, out);
        }
        if !is_taken || !self.screens.note_change()? {
            return Ok(());
        }
        self.put_screen(number, out)
    }
}

impl Album {
    /// Writes the screen after a line, and its picture before it if it is a new one.
    fn put_screen<W: Write>(&mut self, number: u64, out: &mut W) -> io::Result<()> {
        let picture = match self.screens.picture()? {
            None => None,
            Some(picture) => match self.number_of(picture, out)? {
                Some(index) => Some(index),
                None => {
                    self.left_out = self.left_out.saturating_add(1);
                    return Ok(());
                }
            },
        };
        let mut line = JsonLine::new(self.alloc);
        line.put_all(&[
            ("kind", Cell::Text("screen")),
            ("line", Cell::Number(number)),
            ("picture", Cell::number_if(picture)),
            ("time", Cell::Number(self.now)),
        ])?;
        self.screens.put_shown(&mut line)?;
        line.write(out)
    }

    /// The number of a picture, which is written if it is new. `None` if it is not written, because there are enough.
    fn number_of<W: Write>(&mut self, picture: Vec<u8>, out: &mut W) -> io::Result<Option<u64>> {
        if let Some(number) = self.pictures.get(&picture) {
            return Ok(Some(*number as u64));
        }
        let number = self.pictures.len();
        if number >= self.most {
            return Ok(None);
        }
        let mut line = JsonLine::new(self.alloc);
        line.put_text("kind", "picture")?;
        line.put_number("number", number as u64)?;
        line.put_bytes_if("svg", Some(&picture))?;
        line.write(out)?;
        self.pictures.insert(picture, number)?;
        Ok(Some(number as u64))
    }
}

//! The subcommand `draw`.

use crate::screens::Screens;
use crate::sieve::Sieve;
use log_options::{DrawOptions, Format};
use log_replay::{Messages, Replay, ReplayPass, Turn};
use std::alloc::Global;
use std::io::{self, Write};
use vt_can::{Line, LineFault};
use vt_cli::{Cell, JsonLine, Open, Save, Status, make_folder, save_file, tell_replaced};

/// Draws the screen after each line of a log that changes the screen's text.
pub fn run_draw<F: Open + Save, W: Write, E: Messages>(
    alloc: Global,
    options: &DrawOptions<'_>,
    files: &mut F,
    out: &mut W,
    errors: &mut E,
) -> io::Result<Status> {
    let Some(replay) = Replay::follow(alloc, &options.replay, files, errors)? else {
        return Ok(Status::NotJudged);
    };
    let folder = options.folder.trim_end_matches('/');
    if !replay.recorded.has_frames {
        replay.log.tell_no_frame(files, errors)?;
        return Ok(Status::NotJudged);
    }
    let sieve = Sieve::new(alloc, &options.filter, &replay.names);
    if !sieve.has_known_names(files, errors) {
        return Ok(Status::NotJudged);
    }
    if !make_folder(folder, files, errors)? {
        return Ok(Status::NotJudged);
    }
    let mut gallery = Gallery {
        alloc,
        folder,
        format: options.format,
        screens: Screens::new(alloc, replay.terminal()?),
        sieve,
        status: Status::Clean,
    };
    gallery.draw(&replay, files, out, errors)
}

/// The pictures of a replay.
#[derive(Drop)]
struct Gallery<'a> {
    alloc: Global,
    folder: &'a str,
    format: Format,
    screens: Screens,
    sieve: Sieve<'a>,
    status: Status,
}

impl<F: Save, W: Write, E: Messages> ReplayPass<F, W, E> for Gallery<'_> {
    /// Gives the input of a line to the terminal, and draws the screen if its text has changed and the options select the line. The first
    /// screen of the range is drawn in any case.
    fn line(
        &mut self,
        number: u64,
        turn: Turn,
        reading: Result<Line<'_>, LineFault>,
        files: &mut F,
        out: &mut W,
        errors: &mut E,
    ) -> io::Result<()> {
        self.sieve.take_line(number, turn, &reading)?;
        let is_taken = self.screens.take(turn, reading)?;
        if self.sieve.is_first() && !self.sieve.begins_with_log() {
            self.screens.note()?;
            return self.draw_screen(number, files, out, errors);
        }
        if !is_taken || !self.sieve.is_in_range() || !self.screens.note_change()? {
            return Ok(());
        }
        if self.sieve.shows(self.screens.outputs()) {
            self.draw_screen(number, files, out, errors)
        } else {
            Ok(())
        }
    }
}

impl Gallery<'_> {
    /// Draws the screens of a log.
    fn draw<F: Open + Save, W: Write, E: Messages>(
        &mut self,
        replay: &Replay<'_>,
        files: &mut F,
        out: &mut W,
        errors: &mut E,
    ) -> io::Result<Status> {
        if self.sieve.begins_with_log() {
            self.screens.note()?;
            self.draw_screen(0, files, out, errors)?;
        }
        if !replay.pass(self, files, out, errors)? {
            self.status = Status::NotJudged;
        }
        replay.tell_loss(self.screens.terminal(), files, errors);
        tell_replaced(self.folder, files, errors);
        Ok(self.status)
    }

    /// Writes the picture of the screen after a line, and then the line of the report. If it cannot be written, the status is
    /// `NotJudged`.
    fn draw_screen<F: Save, W: Write, E: Write>(
        &mut self,
        number: u64,
        files: &mut F,
        out: &mut W,
        errors: &mut E,
    ) -> io::Result<()> {
        let mut path = None;
        if let Some(picture) = self.screens.picture()? {
            let file = format!(in self.alloc; "{}/line-{number}.svg", self.folder)?;
            if save_file(file.as_str(), &picture, files, errors)? {
                path = Some(file);
            } else {
                self.status = Status::NotJudged;
            }
        }
        match self.format {
            Format::Text => self.put_text(number, path.as_deref(), out),
            Format::Json => self.put_fields(number, path.as_deref(), out),
        }
    }

    /// Writes the screen after a line, by the first line of its text, and the file of its picture.
    fn put_text<W: Write>(&self, number: u64, path: Option<&str>, out: &mut W) -> io::Result<()> {
        write!(out, "line {number}: ")?;
        out.write_all(self.screens.head())?;
        match path {
            Some(path) => writeln!(out, " -> {path}"),
            None => writeln!(out),
        }
    }

    /// Writes the same as an object of JSON.
    fn put_fields<W: Write>(&self, number: u64, path: Option<&str>, out: &mut W) -> io::Result<()> {
        let mut line = JsonLine::new(self.alloc);
        line.put_all(&[
            ("file", Cell::text_if(path)),
            ("kind", Cell::Text("screen")),
            ("line", Cell::Number(number)),
            ("time", Cell::Number(self.sieve.now())),
        ])?;
        self.screens.put_shown(&mut line)?;
        line.write(out)
    }
}

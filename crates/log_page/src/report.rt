//! The subcommand `report`.

use crate::page::{SCRIPTS, body, head, style};
use log_compare::compare_replay;
use log_options::{DifferenceOptions, Format, LineFilter, ReportOptions, TopicFilter};
use log_pools::put_uploads;
use log_replay::{Messages, Replay};
use log_runs::{put_screens, trace_replay};
use log_stats::put_numbers;
use page_blocks::{Block, Room, begin_block, end_block};
use std::alloc::Global;
use std::io::{self, Write};
use vt_cli::{JsonLine, Open, Save, Status, VERSION};

/// The most lines of the log in the page.
const MOST_LINES: u64 = 50_000;

/// The most pictures in the page.
const MOST_PICTURES: usize = 1000;

/// Writes the page of a log.
pub fn run_report<F: Open + Save, W: Write, E: Messages>(
    alloc: Global,
    options: &ReportOptions<'_>,
    files: &mut F,
    out: &mut W,
    errors: &mut E,
) -> io::Result<Status> {
    let Some(replay) = Replay::read(alloc, &options.replay, files, errors)? else {
        return Ok(Status::NotJudged);
    };
    if !replay.recorded.has_frames {
        replay.log.tell_no_frame(files, errors)?;
        return Ok(Status::NotJudged);
    }
    let page = Page {
        alloc,
        options,
        replay: &replay,
    };
    write!(
        out,
        "{}<style>\n{}</style>\n{}",
        head::TEXT,
        style::TEXT,
        body::TEXT
    )?;
    let status = page.put_blocks(files, out, errors)?;
    out.write_all(b"<script>\n")?;
    for part in SCRIPTS {
        out.write_all(part.as_bytes())?;
    }
    out.write_all(b"</script>\n</body>\n</html>\n")?;
    Ok(status)
}

/// The page of a log.
#[derive(Clone, Copy, Drop)]
struct Page<'a> {
    alloc: Global,
    options: &'a ReportOptions<'a>,
    replay: &'a Replay<'a>,
}

impl Page<'_> {
    /// Writes the blocks of data. The messages of the first pass over the log are written to `errors`; those of the others are the same.
    /// If the log cannot be read once more, the status is `NotJudged`, and `errors` receives that.
    fn put_blocks<F: Open + Save, W: Write, E: Messages>(
        &self,
        files: &mut F,
        out: &mut W,
        errors: &mut E,
    ) -> io::Result<Status> {
        let mut repeated = Vec::new(self.alloc);
        let lines_left_out = self.put_trace(files, out, errors)?;
        let screens_left_out = self.put_screens(files, out, &mut repeated)?;
        self.put_differences(files, out, &mut repeated)?;
        self.put_stats(files, out, &mut repeated)?;
        let uploads = self.put_pools(files, out, &mut repeated)?;
        self.tell_left_out(lines_left_out, screens_left_out, files.name(), errors);
        self.put_about(lines_left_out, screens_left_out, out)?;
        if uploads != Status::NotJudged {
            return Ok(Status::Clean);
        }
        let (name, path) = (files.name(), self.replay.log.path());
        let _ = writeln!(
            errors,
            "{name}: {path}: the log could not be read once more, so the page is not whole"
        );
        Ok(Status::NotJudged)
    }

    /// Writes the numbers of the log.
    fn put_stats<F: Open, W: Write, E: Messages>(
        &self,
        files: &mut F,
        out: &mut W,
        errors: &mut E,
    ) -> io::Result<()> {
        begin_block("stats", out)?;
        put_numbers(
            self.alloc,
            self.replay,
            Format::Json,
            files,
            &mut Block::new(self.alloc, out, &mut Room::for_all()),
            errors,
        )?;
        end_block(out)
    }

    /// Writes the pools of the log. The status is `NotJudged` if it cannot be read.
    fn put_pools<F: Open + Save, W: Write, E: Messages>(
        &self,
        files: &mut F,
        out: &mut W,
        errors: &mut E,
    ) -> io::Result<Status> {
        begin_block("pools", out)?;
        let status = put_uploads(
            self.alloc,
            &self.replay.log,
            &self.replay.names,
            files,
            &mut Block::new(self.alloc, out, &mut Room::for_all()),
            errors,
        )?;
        end_block(out)?;
        Ok(status)
    }

    /// Writes the lines of the log in words. Returns how many are left out.
    fn put_trace<F: Open, W: Write, E: Messages>(
        &self,
        files: &mut F,
        out: &mut W,
        errors: &mut E,
    ) -> io::Result<u64> {
        let filter = LineFilter {
            range: self.options.range,
            addresses: Vec::new(self.alloc),
            functions: Vec::new(self.alloc),
            objects: Vec::new(self.alloc),
        };
        begin_block("trace", out)?;
        let mut room = Room::of(MOST_LINES);
        trace_replay(
            self.alloc,
            self.replay,
            &filter,
            Format::Json,
            files,
            &mut Block::new(self.alloc, out, &mut room),
            errors,
        )?;
        end_block(out)?;
        Ok(room.left_out)
    }

    /// Writes the screens with their pictures. Returns how many are left out.
    fn put_screens<F: Open, W: Write, E: Messages>(
        &self,
        files: &mut F,
        out: &mut W,
        errors: &mut E,
    ) -> io::Result<u64> {
        begin_block("screens", out)?;
        let left_out = put_screens(
            self.alloc,
            self.replay,
            self.options.range,
            MOST_PICTURES,
            files,
            &mut Block::new(self.alloc, out, &mut Room::for_all()),
            errors,
        )?;
        end_block(out)?;
        Ok(left_out)
    }

    /// Writes the differences of the recorded terminal, if its messages are in the log.
    fn put_differences<F: Open, W: Write, E: Messages>(
        &self,
        files: &mut F,
        out: &mut W,
        errors: &mut E,
    ) -> io::Result<()> {
        let options = DifferenceOptions {
            filter: TopicFilter {
                range: self.options.range,
                only: Vec::new(self.alloc),
                ignored: Vec::new(self.alloc),
            },
            wait: self.options.wait,
            has_times: false,
            format: Format::Json,
        };
        begin_block("compare", out)?;
        compare_replay(
            self.alloc,
            self.replay,
            &options,
            files,
            &mut Block::new(self.alloc, out, &mut Room::for_all()),
            errors,
        )?;
        end_block(out)
    }

    /// Writes what the page is about.
    fn put_about<W: Write>(
        &self,
        lines_left_out: u64,
        screens_left_out: u64,
        out: &mut W,
    ) -> io::Result<()> {
        begin_block("about", out)?;
        let mut line = JsonLine::new(self.alloc);
        line.put_text("kind", "about")?;
        line.put_number("lines_left_out", lines_left_out)?;
        line.put_text("log", self.replay.log.path())?;
        line.put_address("own", self.replay.own())?;
        line.put_number("screens_left_out", screens_left_out)?;
        line.put_text("version", VERSION)?;
        line.write(&mut Block::new(self.alloc, out, &mut Room::for_all()))?;
        end_block(out)
    }

    /// Writes to `errors` what the page leaves out, if it does.
    fn tell_left_out<E: Write>(&self, lines: u64, screens: u64, program: &str, errors: &mut E) {
        let path = self.replay.log.path();
        if lines > 0 {
            let _ = writeln!(
                errors,
                "{program}: {path}: the page has the first {MOST_LINES} lines, and {lines} are left out; --from and --to choose others"
            );
        }
        if screens > 0 {
            let _ = writeln!(
                errors,
                "{program}: {path}: the page has the first {MOST_PICTURES} pictures, and {screens} screens are left out; --from and --to choose others"
            );
        }
    }
}

//! The subcommand `compare`.

use crate::recorded_times::RecordedTimes;
use crate::report::Report;
use crate::selection::Selection;
use crate::steps::Steps;
use crate::told::Telling;
use log_answers::{Comparison, Difference};
use log_options::{CompareOptions, DifferenceOptions, Format};
use log_replay::{Messages, Replay, ReplayPass, Turn};
use std::alloc::Global;
use std::io::{self, Write};
use vt_can::{Line, LineFault};
use vt_cli::{Open, Program, Status};
use vt_server::Terminal;

/// The microseconds of a millisecond.
const MILLISECOND: u64 = 1000;

/// Prints where the recorded terminal of a log answered differently than this one.
pub fn run_compare<F: Open, W: Write, E: Messages>(
    alloc: Global,
    options: &CompareOptions<'_>,
    files: &mut F,
    out: &mut W,
    errors: &mut E,
) -> io::Result<Status> {
    let Some(replay) = Replay::read(alloc, &options.replay, files, errors)? else {
        return Ok(Status::NotJudged);
    };
    compare_replay(alloc, &replay, &options.report, files, out, errors)
}

/// Prints the differences in the log of a replay.
pub fn compare_replay<F: Open, W: Write, E: Messages>(
    alloc: Global,
    replay: &Replay<'_>,
    options: &DifferenceOptions<'_>,
    files: &mut F,
    out: &mut W,
    errors: &mut E,
) -> io::Result<Status> {
    let selection = Selection {
        filter: &options.filter,
        names: &replay.names,
    };
    if !selection.has_known_names(files, errors) {
        return Ok(Status::NotJudged);
    }
    if !replay.recorded.has_frames {
        replay.log.tell_no_frame(files, errors)?;
        return Ok(Status::NotJudged);
    }
    if !replay.recorded.has_messages {
        replay.log.pass(&mut (), files, out, errors)?;
        tell_no_message(replay, files, errors);
        return Ok(Status::NotJudged);
    }
    let telling = Telling {
        alloc,
        names: &replay.names,
        format: options.format,
    };
    for load in replay.recorded.loads.iter() {
        if !replay.has_pool_of(load.source) {
            telling.put_load(*load, out)?;
        }
    }
    let report = Report::new(alloc, telling, selection);
    let mut run = Run::new(alloc, options.wait, replay.terminal()?, report);
    if options.has_times {
        run.times = Some(RecordedTimes::new(alloc, replay.own()));
    }
    if !replay.pass(&mut run, files, out, errors)? {
        return Ok(Status::NotJudged);
    }
    run.end(options.format, out)?;
    if let Some(count) = run.report.all_ignored() {
        tell_ignored(count, replay, files, errors);
    }
    replay.tell_loss(&run.terminal, files, errors);
    Ok(run.report.status)
}

/// Writes to `errors` that the log has no message of the recorded terminal.
fn tell_no_message<F: Program, E: Write>(replay: &Replay<'_>, files: &F, errors: &mut E) {
    let _ = writeln!(
        errors,
        "{}: {}: the log has no message of a terminal at {:02X} to compare with; --own gives another address",
        files.name(),
        replay.log.path(),
        replay.own()
    );
}

/// Writes to `errors` that the options select none of the differences.
fn tell_ignored<F: Program, E: Write>(count: u64, replay: &Replay<'_>, files: &F, errors: &mut E) {
    let plural = if count == 1 { "" } else { "s" };
    let _ = writeln!(
        errors,
        "{}: {}: {count} difference{plural} ignored, and none selected by --only, --ignore, --from and --to",
        files.name(),
        replay.log.path()
    );
}

/// A comparison in progress.
#[derive(Drop)]
struct Run<'a> {
    terminal: Terminal,
    comparison: Comparison,
    differences: Vec<Difference>,
    steps: Steps,
    report: Report<'a>,
    /// The times of the recorded terminal, if they are reported.
    times: Option<RecordedTimes>,
}

impl<'a> Run<'a> {
    /// A comparison before the first line, in which an answer may take so many milliseconds.
    fn new(alloc: Global, wait: u32, terminal: Terminal, report: Report<'a>) -> Run<'a> {
        let wait = u64::from(wait) * MILLISECOND;
        Run {
            comparison: Comparison::new(alloc, wait, &terminal),
            terminal,
            differences: Vec::new(alloc),
            steps: Steps::new(alloc),
            report,
            times: None,
        }
    }

    /// Reports the differences that the end of the log brings about, the times of the recorded terminal, and the counts of all.
    fn end<W: Write>(&mut self, format: Format, out: &mut W) -> io::Result<()> {
        self.comparison.end(&mut self.differences)?;
        self.put_differences(out)?;
        if let Some(times) = &self.times {
            times.put(format, out)?;
        }
        self.report.end(self.comparison.tally, out)
    }

    /// Reports the differences that are certain, and removes them.
    fn put_differences<W: Write>(&mut self, out: &mut W) -> io::Result<()> {
        for difference in self.differences.iter_mut() {
            self.steps.put_lines(difference);
            self.report.take(difference, &self.terminal, out)?;
        }
        self.differences.clear();
        Ok(())
    }
}

impl<F, W: Write, E> ReplayPass<F, W, E> for Run<'_> {
    /// Compares a line, and writes the differences that are certain then.
    fn line(
        &mut self,
        number: u64,
        turn: Turn,
        reading: Result<Line<'_>, LineFault>,
        _files: &mut F,
        out: &mut W,
        _errors: &mut E,
    ) -> io::Result<()> {
        if let (Some(times), Ok(Line::Frame { time, frame })) = (&mut self.times, &reading) {
            // A frame that comes late was taken at its line.
            if turn != Turn::Late {
                times.take(number, *time, frame)?;
            }
        }
        if matches!(turn, Turn::Never | Turn::Later) {
            return Ok(());
        }
        // A log has fewer lines than there are numbers.
        let Some(step) = self.comparison.line.checked_add(1) else {
            return Ok(());
        };
        self.steps.note(step, number)?;
        let uploader = self.report.causes.note_line(&reading, self.terminal.own());
        let is_received = turn.is_for(&reading, &self.terminal);
        let (terminal, differences) = (&mut self.terminal, &mut self.differences);
        match reading {
            Ok(Line::Frame { time, frame }) if !is_received => {
                self.comparison
                    .take_unreceived(step, time, frame, terminal, differences)?;
            }
            reading => {
                self.comparison
                    .take_line(step, reading, terminal, differences)?;
            }
        }
        if let Some(address) = uploader {
            self.report
                .causes
                .note_end(address, number, &self.terminal)?;
        }
        if self.differences.is_empty() {
            return Ok(());
        }
        self.put_differences(out)
    }
}

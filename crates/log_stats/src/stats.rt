//! The subcommand `stats`.

use crate::Timing;
use crate::fields::Fields;
use check_text::Names;
use log_options::{Format, StatsOptions};
use log_reach::{Reach, ReachText};
use log_replay::{Messages, Replay, ReplayPass, Turn, take};
use log_traffic::Traffic;
use std::alloc::Global;
use std::io::{self, Write};
use vt_can::{Line, LineFault};
use vt_cli::{Open, Status};
use vt_server::{Output, Terminal};

/// Prints the numbers of a log, what it reached of each pool, and what it tells of time.
pub fn run_stats<F: Open, W: Write, E: Messages>(
    alloc: Global,
    options: &StatsOptions<'_>,
    files: &mut F,
    out: &mut W,
    errors: &mut E,
) -> io::Result<Status> {
    let Some(replay) = Replay::read(alloc, &options.replay, files, errors)? else {
        return Ok(Status::NotJudged);
    };
    if !replay.recorded.has_frames {
        replay.log.tell_no_frame(files, errors)?;
        return Ok(Status::NotJudged);
    }
    put_numbers(alloc, &replay, options.format, files, out, errors)
}

/// Writes the numbers of the log of a replay. If the log cannot be read to its end, nothing is written, and `errors` receives the reason.
pub fn put_numbers<F: Open, W: Write, E: Messages>(
    alloc: Global,
    replay: &Replay<'_>,
    format: Format,
    files: &mut F,
    out: &mut W,
    errors: &mut E,
) -> io::Result<Status> {
    let terminal = replay.terminal()?;
    let reach = Reach::new(alloc, &terminal)?;
    let mut run = Run {
        terminal,
        traffic: Traffic::new(alloc),
        timing: Timing::new(alloc),
        reach,
        outputs: Vec::new(alloc),
    };
    if !replay.pass(&mut run, files, out, errors)? {
        return Ok(Status::NotJudged);
    }
    run.put(&replay.names, format, alloc, out)?;
    replay.tell_loss(&run.terminal, files, errors);
    Ok(Status::Clean)
}

/// The numbers of a log so far, what it reached, and what it tells of time.
#[derive(Drop)]
struct Run {
    terminal: Terminal,
    traffic: Traffic,
    timing: Timing,
    reach: Reach,
    outputs: Vec<Output>,
}

impl<F, W, E> ReplayPass<F, W, E> for Run {
    /// Counts a line, and notes what it reaches and when. A frame is counted at its line.
    fn line(
        &mut self,
        number: u64,
        turn: Turn,
        reading: Result<Line<'_>, LineFault>,
        _files: &mut F,
        _out: &mut W,
        _errors: &mut E,
    ) -> io::Result<()> {
        match &reading {
            // A frame that comes late was counted at its line.
            Ok(Line::Frame { .. }) if turn == Turn::Late => {}
            Ok(Line::Frame { time, frame }) => {
                let sent = self.traffic.take(number, *time, frame)?;
                self.timing.take(number, *time, frame, sent.as_ref())?;
            }
            Ok(Line::Operator(_) | Line::Skipped(_) | Line::Comment) | Err(_) => {
                self.timing.pass_over(number, &reading);
            }
        }
        self.outputs.clear();
        self.reach.before(&reading, &self.terminal);
        if take(turn, reading, &mut self.terminal, &mut self.outputs)? {
            self.reach.after(&self.outputs, &self.terminal)?;
        }
        Ok(())
    }
}

impl Run {
    /// Writes the numbers of the log, what it reached, and what it tells of time.
    fn put<W: Write>(
        &self,
        names: &Names,
        format: Format,
        alloc: Global,
        out: &mut W,
    ) -> io::Result<()> {
        let report = self.traffic.report()?;
        let sets = self.reach.sets()?;
        let timing = self.timing.report()?;
        match format {
            Format::Text => {
                write!(out, "{report}")?;
                for set in sets.iter() {
                    write!(out, "{}", ReachText { set, names })?;
                }
                write!(out, "{timing}")?;
            }
            Format::Json => {
                let fields = Fields { alloc, names };
                fields.put_report(&report, out)?;
                for set in sets.iter() {
                    fields.put_set(set, out)?;
                }
                timing.put_json(alloc, out)?;
            }
        }
        Ok(())
    }
}

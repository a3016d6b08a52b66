//! The subcommand `trace`.

use crate::sieve::Sieve;
use crate::traced_line::TracedLine;
use log_options::{Format, LineFilter, TraceOptions};
use log_replay::{Messages, Replay, ReplayPass, Turn};
use log_trace::Tracer;
use std::alloc::{AllocError, Global};
use std::io::{self, Write};
use vt_can::{Line, LineFault};
use vt_cli::{Open, Status};
use vt_server::Terminal;

/// Prints the selected lines of a log in words, with the answers of the terminal and the changes of its screen.
pub fn run_trace<F: Open, W: Write, E: Messages>(
    alloc: Global,
    options: &TraceOptions<'_>,
    files: &mut F,
    out: &mut W,
    errors: &mut E,
) -> io::Result<Status> {
    let Some(replay) = Replay::follow(alloc, &options.replay, files, errors)? else {
        return Ok(Status::NotJudged);
    };
    trace_replay(
        alloc,
        &replay,
        &options.filter,
        options.format,
        files,
        out,
        errors,
    )
}

/// Prints the selected lines of the log of a replay.
pub fn trace_replay<F: Open, W: Write, E: Messages>(
    alloc: Global,
    replay: &Replay<'_>,
    filter: &LineFilter<'_>,
    format: Format,
    files: &mut F,
    out: &mut W,
    errors: &mut E,
) -> io::Result<Status> {
    let sieve = Sieve::new(alloc, filter, &replay.names);
    if !sieve.has_known_names(files, errors) {
        return Ok(Status::NotJudged);
    }
    let terminal = replay.terminal()?;
    let mut trace = Trace {
        alloc,
        format,
        tracer: Tracer::new(alloc, &replay.names, &terminal)?,
        terminal,
        sieve,
        text: Vec::new(alloc),
    };
    if !replay.pass(&mut trace, files, out, errors)? {
        return Ok(Status::NotJudged);
    }
    replay.tell_loss(&trace.terminal, files, errors);
    Ok(Status::Clean)
}

/// A trace in progress.
#[derive(Drop)]
struct Trace<'a> {
    alloc: Global,
    format: Format,
    tracer: Tracer<'a>,
    terminal: Terminal,
    sieve: Sieve<'a>,
    text: Vec<u8>,
}

impl<F, W: Write, E> ReplayPass<F, W, E> for Trace<'_> {
    /// Prints a line in words, if the options select it.
    fn line(
        &mut self,
        number: u64,
        turn: Turn,
        reading: Result<Line<'_>, LineFault>,
        _files: &mut F,
        out: &mut W,
        _errors: &mut E,
    ) -> io::Result<()> {
        self.text.clear();
        self.sieve.take_line(number, turn, &reading)?;
        self.trace_line(number, turn, &reading)?;
        if self.text.is_empty() || !self.sieve.shows(self.tracer.outputs()) {
            return Ok(());
        }
        match self.format {
            Format::Text => out.write_all(&self.text),
            Format::Json => {
                let traced = TracedLine::new(self.alloc, number, self.sieve.now(), &self.text)?;
                traced.write(&reading, out)
            }
        }
    }
}

impl Trace<'_> {
    /// Appends the trace of a line to the text. A frame that is not given to the terminal now has one line.
    fn trace_line(
        &mut self,
        number: u64,
        turn: Turn,
        reading: &Result<Line<'_>, LineFault>,
    ) -> Result<(), AllocError> {
        let Trace {
            tracer,
            terminal,
            text,
            ..
        } = self;
        let Ok(Line::Frame { time, frame }) = reading else {
            return tracer.trace_line(number, reading, terminal, text);
        };
        if turn.is_for(reading, terminal) {
            return tracer.trace_line(number, reading, terminal, text);
        }
        let why = match turn {
            Turn::Never => "left out, as it came again or out of order",
            Turn::Later => "held until the packets before it are received",
            Turn::Now | Turn::Own | Turn::Late => {
                return tracer.trace_own_frame(number, *time, frame, terminal, text);
            }
        };
        tracer.trace_unreceived(number, *time, frame, why, terminal, text)
    }
}

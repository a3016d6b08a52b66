//! The subcommand `operator`.

use crate::actions::{action_in, put_action, put_fields};
use log_listen::{Broken, Listener};
use log_options::{Format, OperatorOptions};
use log_replay::{Log, Messages, Pass, TakeLine};
use std::alloc::{AllocError, Global};
use std::io::{self, Write};
use vt_can::assigned::{TP_CM, TP_RTS, VT_TO_ECU};
use vt_can::{Frame, Line, LineFault};
use vt_cli::{Open, Status};
use vt_recorded::{Reader, is_of_interface};

/// Prints the log with the operator's lines, each before the message that reports it; or only the operator's actions as lines of JSON.
pub(crate) fn run_operator<F: Open, W: Write, E: Messages>(
    alloc: Global,
    options: OperatorOptions<'_>,
    files: &mut F,
    out: &mut W,
    errors: &mut E,
) -> io::Result<Status> {
    let Some(log) = Log::open(alloc, options.log, options.interface, files, errors)? else {
        return Ok(Status::NotJudged);
    };
    let mut recording = Recording::new(alloc, options.own, options.format);
    if !log.pass(&mut recording, files, out, errors)? {
        return Ok(Status::NotJudged);
    }
    recording.told.sort_by_key(|told| told.before)?;
    if options.format == Format::Json {
        for told in recording.told.iter() {
            out.write_all(&told.line)?;
        }
        return Ok(Status::Clean);
    }
    let mut copy = LogCopy::new(alloc, log.interface(), recording.told.as_slice());
    if !log.each_line(&mut copy, files, out, errors)? {
        return Ok(Status::NotJudged);
    }
    if copy.left_out > 0 {
        let _ = writeln!(
            errors,
            "{}: {}: its operator lines are left out: {}",
            files.name(),
            options.log,
            copy.left_out
        );
    }
    Ok(Status::Clean)
}

/// The line of output for an action that a message reports, and the line of the log before which it is written: that of the message's
/// first frame.
#[derive(Drop)]
struct Told {
    before: u64,
    line: Vec<u8>,
}

/// What was received of a recorded terminal.
#[derive(Drop)]
struct Recording {
    alloc: Global,
    own: u8,
    format: Format,
    /// The latest time so far, in microseconds.
    now: u64,
    listener: Listener,
    broken: Vec<Broken>,
    /// The line of the last request to each address.
    requests: [u64; 256],
    /// The operator's lines that the messages report, in the order of the messages.
    told: Vec<Told>,
}

impl<F, W, E> Pass<F, W, E> for Recording {
    /// Notes what the frame of a line reports of the operator.
    fn line(
        &mut self,
        number: u64,
        reading: Result<Line<'_>, LineFault>,
        _files: &mut F,
        _out: &mut W,
        _errors: &mut E,
    ) -> io::Result<()> {
        if let Ok(Line::Frame { time, frame }) = reading {
            self.now = self.now.max(time);
            self.hear(number, &frame)?;
        }
        Ok(())
    }
}

impl Recording {
    /// A recording of the terminal at an address, before its first frame. Does not allocate.
    fn new(alloc: Global, own: u8, format: Format) -> Recording {
        Recording {
            alloc,
            own,
            format,
            now: 0,
            listener: Listener::new(alloc),
            broken: Vec::new(alloc),
            requests: [0; 256],
            told: Vec::new(alloc),
        }
    }

    /// Notes what the frame of a line reports of the operator.
    fn hear(&mut self, number: u64, frame: &Frame) -> Result<(), AllocError> {
        if frame.id.source() == self.own {
            if frame.id.pgn() == VT_TO_ECU {
                return self.tell(number, frame.bytes.as_slice());
            }
            self.note_request(number, frame);
        }
        self.broken.clear();
        match self.listener.hear(frame, &mut self.broken)? {
            Some(sent) if sent.source == self.own && sent.pgn == VT_TO_ECU => {
                self.tell(self.requests[usize::from(sent.destination)], &sent.bytes)
            }
            _ => Ok(()),
        }
    }

    /// Notes the line of a frame of the terminal, if the frame is a request to send a message in packets.
    fn note_request(&mut self, number: u64, frame: &Frame) {
        let bytes = frame.bytes.as_slice();
        let is_request = frame.id.pgn() == TP_CM && matches!(bytes, [TP_RTS, _, _, _, _, _, _, _]);
        if let Some(destination) = frame.id.destination() {
            if is_request {
                self.requests[usize::from(destination)] = number;
            }
        }
    }

    /// Keeps the operator's line that a message reports, if it reports one.
    fn tell(&mut self, before: u64, message: &[u8]) -> Result<(), AllocError> {
        let Some(action) = action_in(message) else {
            return Ok(());
        };
        let mut line = Vec::new(self.alloc);
        match self.format {
            Format::Text => put_action(action, &mut line),
            Format::Json => put_fields(self.alloc, before, self.now, action, &mut line),
        }
        .map_err(|_| AllocError)?;
        self.told.push(Told { before, line })?;
        Ok(())
    }
}

/// A copy of a log in progress: its lines without those of the operator and the frames of other interfaces, and before each the operator's
/// lines that it reports.
#[derive(Drop)]
struct LogCopy<'a> {
    reader: Reader,
    /// The only interface whose frames are written, or `None` for all.
    interface: Option<&'a str>,
    /// The operator's lines that are still to be written.
    told: &'a [Told],
    /// How many operator lines of the log were left out.
    left_out: u64,
}

impl<'a> LogCopy<'a> {
    /// A copy before its first line. Does not allocate.
    fn new(alloc: Global, interface: Option<&'a str>, told: &'a [Told]) -> LogCopy<'a> {
        LogCopy {
            reader: Reader::new(alloc),
            interface,
            told,
            left_out: 0,
        }
    }
}

impl<F, W: Write, E> TakeLine<F, W, E> for LogCopy<'_> {
    fn take_line(
        &mut self,
        number: u64,
        line: &[u8],
        _files: &mut F,
        out: &mut W,
        _errors: &mut E,
    ) -> io::Result<()> {
        let count = self.told.partition_point(|told| told.before <= number);
        let (ready, later) = self.told.split_at(count);
        for told in ready {
            out.write_all(&told.line)?;
        }
        self.told = later;
        if is_of_interface(line, self.interface) && !put_line(&mut self.reader, line, out)? {
            self.left_out = self.left_out.saturating_add(1);
        }
        Ok(())
    }

    /// Each line is copied whole.
    fn longest(&self) -> usize {
        usize::MAX
    }
}

/// Writes a line, unless it is one of the operator, and returns whether it did. A frame of another recorder is written in its plain form.
fn put_line<W: Write>(reader: &mut Reader, line: &[u8], out: &mut W) -> io::Result<bool> {
    let is_read = match reader.read(line)? {
        Ok(Line::Operator(_)) | Err(LineFault::Operator) => return Ok(false),
        Ok(_) => true,
        Err(_) => false,
    };
    let plain = reader.plain();
    let is_plain = is_read && !plain.is_empty();
    out.write_all(if is_plain { plain } else { line })?;
    out.write_all(b"\n")?;
    Ok(true)
}

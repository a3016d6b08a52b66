//! What a log tells of time.

use crate::busy_seconds::BusySeconds;
use crate::clock::Clock;
use crate::groups::Groups;
use crate::line_counts::LineCounts;
use log_listen::SentMessage;
use log_times::{Message, Times, TimesReport};
use log_traffic::Moment;
use std::alloc::{AllocError, Global};
use std::fmt;
use std::io::{self, Write};
use vt_can::{Frame, Line, LineFault};

/// What a log tells of time: lines that are passed over, the busiest second, frames by parameter group and messages by function, the times
/// of messages, and steps of the clock.
///
/// The memory grows with the number of seconds, of parameter groups, of answers (four bytes each) and of open requests and transfers.
#[derive(Drop)]
pub struct Timing {
    /// The latest frame.
    last: Option<Moment>,
    lines: LineCounts,
    seconds: BusySeconds,
    groups: Groups,
    times: Times,
    clock: Clock,
}

impl Timing {
    /// No lines. Does not allocate.
    pub fn new(alloc: Global) -> Timing {
        Timing {
            last: None,
            lines: LineCounts::default(),
            seconds: BusySeconds::new(alloc),
            groups: Groups::new(alloc),
            times: Times::new(alloc),
            clock: Clock::default(),
        }
    }

    /// Takes a line that is not the line of a frame.
    pub fn pass_over(&mut self, line: u64, reading: &Result<Line<'_>, LineFault>) {
        self.lines.take(line, reading);
    }

    /// Takes the frame of a line at a time in microseconds, with the message in packets that it completes. A time before that of an
    /// earlier frame counts as the latest so far. After `OutOfMemory` what was counted is of no more use.
    pub fn take(
        &mut self,
        line: u64,
        time: u64,
        frame: &Frame,
        sent: Option<&SentMessage>,
    ) -> Result<(), AllocError> {
        self.clock.take(line, time);
        let latest = self.last.map_or(time, |last| last.time.max(time));
        let at = Moment { line, time: latest };
        self.last = Some(at);
        self.seconds.take(latest, frame.bytes.len())?;
        let message = Message::whole_with(frame, sent);
        self.groups.take(frame.id.pgn(), message)?;
        self.times.take(at, frame, sent)
    }

    /// The report on the lines so far. `OutOfMemory` if an allocation is refused.
    pub fn report(&self) -> Result<TimingReport<'_>, AllocError> {
        let end = self.last.unwrap_or(Moment { line: 0, time: 0 });
        Ok(TimingReport {
            lines: self.lines,
            seconds: &self.seconds,
            groups: &self.groups,
            times: self.times.report(end)?,
            clock: self.clock,
        })
    }
}

/// What a log tells of time. Its `Display` writes a line for each thing that there is to tell.
#[derive(Drop)]
pub struct TimingReport<'a> {
    /// The lines that are passed over.
    pub lines: LineCounts,
    /// The seconds with a frame.
    pub seconds: &'a BusySeconds,
    /// Frames by parameter group, and messages by function.
    pub groups: &'a Groups,
    /// The times of messages.
    pub times: TimesReport,
    /// The steps of the clock.
    pub clock: Clock,
}

impl fmt::Display for TimingReport<'_> {
    fn fmt<W: fmt::Write>(&self, f: &mut fmt::Formatter<W>) -> fmt::Result {
        write!(f, "{}", self.lines)?;
        if let Some(busiest) = self.seconds.busiest() {
            write!(f, "{busiest}")?;
        }
        write!(f, "{}{}{}", self.groups, self.times, self.clock)
    }
}

impl TimingReport<'_> {
    /// Writes a line of JSON for each thing that there is to tell.
    pub(crate) fn put_json<W: Write>(&self, alloc: Global, out: &mut W) -> io::Result<()> {
        self.lines.put_json(alloc, out)?;
        self.seconds.put_json(alloc, out)?;
        self.groups.put_json(alloc, out)?;
        self.times.put_json(alloc, "answers", out)?;
        self.clock.put_json(alloc, out)
    }
}

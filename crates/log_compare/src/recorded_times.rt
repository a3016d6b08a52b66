//! What the log tells of the recorded terminal's times.

use log_listen::{Broken, Listener};
use log_options::Format;
use log_times::Times;
use log_traffic::Moment;
use std::alloc::{AllocError, Global};
use std::io::{self, Write};
use vt_can::Frame;

/// What the log tells of the recorded terminal's times so far: its frames, and those to it.
#[derive(Drop)]
pub(crate) struct RecordedTimes {
    alloc: Global,
    /// The address of the terminal.
    own: u8,
    /// The latest frame of any node.
    last: Moment,
    listener: Listener,
    broken: Vec<Broken>,
    times: Times,
}

impl RecordedTimes {
    /// Before the first line. Does not allocate.
    pub(crate) fn new(alloc: Global, own: u8) -> RecordedTimes {
        RecordedTimes {
            alloc,
            own,
            last: Moment { line: 0, time: 0 },
            listener: Listener::new(alloc),
            broken: Vec::new(alloc),
            times: Times::new(alloc),
        }
    }

    /// Takes the frame of a line. A time before that of an earlier frame counts as the latest so far. After `OutOfMemory` what was taken
    /// is of no more use.
    pub(crate) fn take(&mut self, line: u64, time: u64, frame: &Frame) -> Result<(), AllocError> {
        let time = self.last.time.max(time);
        self.last = Moment { line, time };
        if frame.id.source() != self.own && frame.id.destination() != Some(self.own) {
            return Ok(());
        }
        self.broken.clear();
        let sent = self.listener.hear(frame, &mut self.broken)?;
        self.times.take(self.last, frame, sent.as_ref())
    }

    /// Writes a line for each thing that there is to tell.
    pub(crate) fn put<W: Write>(&self, format: Format, out: &mut W) -> io::Result<()> {
        let report = self.times.report(self.last)?;
        match format {
            Format::Text => write!(out, "{report}"),
            Format::Json => report.put_json(self.alloc, "answer_times", out),
        }
    }
}

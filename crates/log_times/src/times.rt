//! What a log tells of the times of messages.

use crate::answer_times::{AnswerTimes, FunctionTimes};
use crate::gaps::{Gaps, SignalGaps};
use crate::handshakes::{Handshakes, MissingAnswers};
use crate::message::Message;
use log_listen::SentMessage;
use log_traffic::Moment;
use std::alloc::{AllocError, Global};
use std::fmt;
use std::io::{self, Write};
use vt_can::Frame;

/// What a log tells of the times of messages so far. The memory grows with the number of answers, by four bytes for each, and with that of
/// open requests and transfers.
#[derive(Drop)]
pub struct Times {
    gaps: Gaps,
    answers: AnswerTimes,
    handshakes: Handshakes,
}

impl Times {
    /// No frames. Does not allocate.
    pub fn new(alloc: Global) -> Times {
        Times {
            gaps: Gaps::new(alloc),
            answers: AnswerTimes::new(alloc),
            handshakes: Handshakes::new(alloc),
        }
    }

    /// Takes a frame at a moment, which is no earlier than that of the frame before, with the message in packets that it completes. After
    /// `OutOfMemory` what was taken is of no more use.
    pub fn take(
        &mut self,
        at: Moment,
        frame: &Frame,
        sent: Option<&SentMessage>,
    ) -> Result<(), AllocError> {
        self.handshakes.take(at, frame, sent)?;
        if let Some(message) = Message::whole_with(frame, sent) {
            self.gaps.take(at, message)?;
            self.answers.take(at.time, message)?;
        }
        Ok(())
    }

    /// The report on a log whose last frame is at a moment. `OutOfMemory` if an allocation is refused.
    pub fn report(&self, end: Moment) -> Result<TimesReport, AllocError> {
        Ok(TimesReport {
            gaps: self.gaps.report(end)?,
            answers: self.answers.report(end.time)?,
            missing: self.handshakes.report(),
        })
    }
}

/// What a log tells of the times of messages. Its `Display` writes a line for each thing that there is to tell.
#[derive(Drop)]
pub struct TimesReport {
    /// The gaps of each signal that has one.
    pub gaps: Vec<SignalGaps>,
    /// The answer times of each function.
    pub answers: Vec<FunctionTimes>,
    /// The transfers whose receiver did not answer.
    pub missing: MissingAnswers,
}

impl fmt::Display for TimesReport {
    fn fmt<W: fmt::Write>(&self, f: &mut fmt::Formatter<W>) -> fmt::Result {
        if !self.gaps.is_empty() {
            f.write_str("gaps over 3 s:\n")?;
        }
        for gaps in self.gaps.iter() {
            write!(f, "{gaps}")?;
        }
        if !self.answers.is_empty() {
            f.write_str("answer times:\n")?;
        }
        for times in self.answers.iter() {
            write!(f, "{times}")?;
        }
        write!(f, "{}", self.missing)
    }
}

impl TimesReport {
    /// Writes a line of JSON for each thing that there is to tell. The answer times of a function have this `"kind"`.
    pub fn put_json<W: Write>(&self, alloc: Global, kind: &str, out: &mut W) -> io::Result<()> {
        for gaps in self.gaps.iter() {
            gaps.put_json(alloc, out)?;
        }
        for times in self.answers.iter() {
            times.put_json(alloc, kind, out)?;
        }
        self.missing.put_json(alloc, out)
    }
}

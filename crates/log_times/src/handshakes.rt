//! Transfers whose receiver did not answer.

use crate::occurrences::{FirstPlace, Occurrences};
use log_listen::SentMessage;
use log_traffic::{Channel, Control, Moment, control_in};
use std::alloc::{AllocError, Global};
use std::collections::BTreeMap;
use std::fmt;
use std::io::{self, Write};
use vt_can::Frame;
use vt_can::assigned::{ETP_DT, GLOBAL_ADDRESS};
use vt_frames_text::Count;

/// The most microseconds between a request and the same one that another interface recorded.
const MOST_APART: u64 = 1000;

/// A transfer that has not ended.
#[derive(Clone, Copy)]
struct Handshake {
    /// Where its request is.
    request: Moment,
    /// The number of bytes of its message.
    size: u32,
    /// The parameter group of its message.
    pgn: u32,
    /// Whether its receiver has sent a CTS.
    is_cleared: bool,
    /// The line of the packet that made its message whole.
    whole_line: Option<u64>,
}

/// The transfers whose receiver did not answer. Its `Display` writes a line for each of both sorts that occurs.
#[derive(Clone, Copy, Default)]
pub struct MissingAnswers {
    /// Requests without a CTS or an abort of the receiver.
    pub clear: Occurrences,
    /// Whole messages without an end message. Their lines are those of the packets that made them whole.
    pub end: Occurrences,
}

impl MissingAnswers {
    /// Counts what a transfer has not got when it is over.
    fn note(&mut self, handshake: &Handshake) {
        if !handshake.is_cleared {
            self.clear.note(handshake.request.line);
        }
        if let Some(line) = handshake.whole_line {
            self.end.note(line);
        }
    }

    /// Writes a line of JSON for each of both sorts that occurs.
    pub(crate) fn put_json<W: Write>(&self, alloc: Global, out: &mut W) -> io::Result<()> {
        let (kind, member) = ("handshake", "missing");
        self.clear.put_json(alloc, kind, member, "CTS", out)?;
        self.end.put_json(alloc, kind, member, "end", out)
    }
}

impl fmt::Display for MissingAnswers {
    fn fmt<W: fmt::Write>(&self, f: &mut fmt::Formatter<W>) -> fmt::Result {
        if self.clear.count > 0 {
            let requests = Count(self.clear.count, "request");
            let place = FirstPlace(self.clear);
            writeln!(f, "transport: {requests} without a CTS, {place}")?;
        }
        if self.end.count > 0 {
            let messages = Count(self.end.count, "whole message");
            let place = FirstPlace(self.end);
            writeln!(f, "transport: {messages} without an end message, {place}")?;
        }
        Ok(())
    }
}

/// The transfers that have not ended, and what those that have were missing. The memory grows with the number of channels with an open
/// transfer.
#[derive(Drop)]
pub(crate) struct Handshakes {
    open: BTreeMap<Channel, Handshake>,
    missing: MissingAnswers,
}

impl Handshakes {
    /// No transfers. Does not allocate.
    pub(crate) fn new(alloc: Global) -> Handshakes {
        Handshakes {
            open: BTreeMap::new(alloc),
            missing: MissingAnswers::default(),
        }
    }

    /// Takes a frame at a moment, which is no earlier than that of the frame before, with the message in packets that it completes.
    pub(crate) fn take(
        &mut self,
        at: Moment,
        frame: &Frame,
        sent: Option<&SentMessage>,
    ) -> Result<(), AllocError> {
        if let Some(sent) = sent {
            self.complete(at.line, frame, sent);
            return Ok(());
        }
        let Some((channel, control)) = control_in(frame) else {
            return Ok(());
        };
        match control {
            Control::Request { .. } if channel.destination == GLOBAL_ADDRESS => {}
            Control::Request { size, pgn } => self.request(at, channel, size, pgn)?,
            Control::Clear => {
                if let Some(handshake) = self.open.get_mut(&channel.swapped()) {
                    handshake.is_cleared = true;
                }
            }
            Control::End => self.end(channel.swapped()),
            Control::Abort { pgn } => self.abort(channel, pgn),
        }
        Ok(())
    }

    /// Opens a transfer, and ends an earlier one in its channel.
    fn request(
        &mut self,
        at: Moment,
        channel: Channel,
        size: u32,
        pgn: u32,
    ) -> Result<(), AllocError> {
        let earlier = self.open.get(&channel).copied();
        if let Some(earlier) = earlier {
            let is_same = earlier.size == size && earlier.pgn == pgn;
            if is_same && at.since(earlier.request) <= MOST_APART {
                return Ok(());
            }
            self.missing.note(&earlier);
        }
        let handshake = Handshake {
            request: at,
            size,
            pgn,
            is_cleared: false,
            whole_line: None,
        };
        self.open.insert(channel, handshake)?;
        Ok(())
    }

    /// Notes that the message of a transfer is whole.
    fn complete(&mut self, line: u64, packet: &Frame, sent: &SentMessage) {
        let channel = Channel {
            is_extended: packet.id.pgn() == ETP_DT,
            source: sent.source,
            destination: sent.destination,
        };
        if let Some(handshake) = self.open.get_mut(&channel) {
            handshake.whole_line = Some(line);
        }
    }

    /// Ends the transfer of a channel with an end message.
    fn end(&mut self, channel: Channel) {
        if let Some(mut handshake) = self.open.remove(&channel) {
            handshake.whole_line = None;
            self.missing.note(&handshake);
        }
    }

    /// Ends the transfer that an abort is about, from either end of it. The receiver's abort stands for a CTS.
    fn abort(&mut self, channel: Channel, pgn: u32) {
        for (channel, is_receiver) in [(channel, false), (channel.swapped(), true)] {
            let Some(mut handshake) = self.open.get(&channel).copied() else {
                continue;
            };
            if handshake.pgn == pgn {
                handshake.is_cleared = handshake.is_cleared || is_receiver;
                self.missing.note(&handshake);
                let _ended = self.open.remove(&channel);
            }
        }
    }

    /// What is missing at the end of the log.
    pub(crate) fn report(&self) -> MissingAnswers {
        let mut missing = self.missing;
        for handshake in self.open.values() {
            missing.note(handshake);
        }
        missing
    }
}

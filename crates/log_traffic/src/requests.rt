//! Requests of messages in packets.

use std::alloc::{AllocError, Global};
use std::collections::BTreeMap;
use vt_can::Frame;
use vt_can::assigned::{ETP_CM, ETP_DT, ETP_RTS, TP_CM, TP_DT, TP_RTS};

/// The ends of a transfer, and its protocol.
#[derive(Clone, Copy, PartialEq, Eq, PartialOrd, Ord)]
pub struct Channel {
    pub is_extended: bool,
    pub source: u8,
    pub destination: u8,
}

impl Channel {
    /// The channel of the other direction.
    pub fn swapped(self) -> Channel {
        Channel {
            is_extended: self.is_extended,
            source: self.destination,
            destination: self.source,
        }
    }
}

/// A frame of a sender in its channel.
#[derive(Clone, Copy)]
enum SenderFrame {
    Request(Channel),
    Packet(Channel),
}

impl SenderFrame {
    /// `None` for any other frame.
    fn of_frame(frame: &Frame) -> Option<SenderFrame> {
        let group = frame.id.pgn();
        if !matches!(group, TP_CM | TP_DT | ETP_CM | ETP_DT) {
            return None;
        }
        let [control, _, _, _, _, _, _, _] = frame.bytes.as_slice() else {
            return None;
        };
        let channel = Channel {
            is_extended: matches!(group, ETP_CM | ETP_DT),
            source: frame.id.source(),
            destination: frame.id.destination()?,
        };
        match (group, *control) {
            (TP_CM, TP_RTS) | (ETP_CM, ETP_RTS) => Some(SenderFrame::Request(channel)),
            (TP_DT | ETP_DT, _) => Some(SenderFrame::Packet(channel)),
            _ => None,
        }
    }
}

/// A request whose message is not whole.
#[derive(Clone, Copy)]
pub struct Request {
    /// The number of its line.
    pub line: u64,
    /// Its time, in microseconds.
    pub time: u64,
    /// The packets since then.
    pub packets: u64,
}

/// The last request in each channel whose message is not whole.
#[derive(Drop)]
pub struct Requests {
    last: BTreeMap<Channel, Request>,
}

impl Requests {
    /// No requests. Does not allocate.
    pub fn new(alloc: Global) -> Requests {
        Requests {
            last: BTreeMap::new(alloc),
        }
    }

    /// Notes a request in place of an earlier one in its channel, or counts a packet since the request.
    pub fn note(&mut self, line: u64, time: u64, frame: &Frame) -> Result<(), AllocError> {
        match SenderFrame::of_frame(frame) {
            Some(SenderFrame::Request(channel)) => {
                let request = Request {
                    line,
                    time,
                    packets: 0,
                };
                self.last.insert(channel, request)?;
            }
            Some(SenderFrame::Packet(channel)) => {
                if let Some(request) = self.last.get_mut(&channel) {
                    request.packets = request.packets.saturating_add(1);
                }
            }
            None => {}
        }
        Ok(())
    }

    /// Removes the request in the channel of a packet.
    pub fn remove(&mut self, frame: &Frame) -> Option<Request> {
        match SenderFrame::of_frame(frame) {
            Some(SenderFrame::Packet(channel)) => self.last.remove(&channel),
            _ => None,
        }
    }
}

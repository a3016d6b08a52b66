//! How the messages in packets to a recorded terminal ended.

use crate::marks::{Mark, Sender};
use std::alloc::{AllocError, Global};
use std::collections::{BTreeMap, BTreeSet};
use vt_can::Frame;

/// How the messages in packets to a terminal ended, each by the line of its request.
///
/// Only those that the terminal did not receive are kept, so a long log with many messages needs little memory.
#[derive(Drop)]
pub struct Endings {
    /// Whether the frames of a log are noted.
    is_known: bool,
    /// The message of each sender that has not ended.
    open: BTreeMap<Sender, u64>,
    /// The messages that the terminal or the sender has aborted.
    aborted: BTreeSet<u64>,
    /// The messages behind which their sender has requested another one, before they ended.
    left: BTreeSet<u64>,
}

/// What the log shows of the end of a message in packets to the terminal.
#[derive(Clone, Copy, PartialEq, Eq)]
pub(crate) enum Ending {
    /// The terminal has sent the end message.
    Received,
    /// The terminal or the sender has aborted it.
    Aborted,
    /// Neither is in the log.
    Unknown,
}

impl Endings {
    /// Those of a log that is read only once, of which nothing is known beforehand. Does not allocate.
    pub fn unknown(alloc: Global) -> Endings {
        Endings {
            is_known: false,
            open: BTreeMap::new(alloc),
            aborted: BTreeSet::new(alloc),
            left: BTreeSet::new(alloc),
        }
    }

    /// Notes what the frame of a line says about a message in packets to the terminal at an address.
    pub fn note(&mut self, line: u64, frame: &Frame, own: u8) -> Result<(), AllocError> {
        self.is_known = true;
        match Mark::in_frame(frame, own) {
            Some(Mark::Request(sender, _)) => {
                self.leave(sender)?;
                self.open.insert(sender, line)?;
            }
            Some(Mark::Refused(sender)) => self.leave(sender)?,
            Some(Mark::Abort(sender)) => {
                if let Some(request) = self.open.remove(&sender) {
                    self.aborted.insert(request)?;
                }
            }
            Some(Mark::End(sender)) => {
                self.open.remove(&sender);
            }
            Some(Mark::Offset(..) | Mark::Packet(..)) | None => {}
        }
        Ok(())
    }

    /// Ends the message of a sender, which has requested to send another one.
    fn leave(&mut self, sender: Sender) -> Result<(), AllocError> {
        if let Some(request) = self.open.remove(&sender) {
            self.left.insert(request)?;
        }
        Ok(())
    }

    /// What the log shows of the message that a line requests to send.
    pub(crate) fn of(&self, request: u64) -> Ending {
        if self.aborted.contains(&request) {
            return Ending::Aborted;
        }
        let is_open = self.open.values().any(|open| *open == request);
        if !self.is_known || is_open || self.left.contains(&request) {
            Ending::Unknown
        } else {
            Ending::Received
        }
    }
}

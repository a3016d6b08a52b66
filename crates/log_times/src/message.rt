//! Messages between implements and terminals.

use log_listen::SentMessage;
use vt_can::Frame;
use vt_can::assigned::{ECU_TO_VT, VT_TO_ECU};

/// Who sends a message: an implement or a terminal.
#[derive(Clone, Copy, PartialEq, Eq, PartialOrd, Ord)]
pub enum Direction {
    /// An implement sends it to a terminal.
    ToTerminal,
    /// A terminal sends it.
    OfTerminal,
}

impl Direction {
    /// The direction of the messages of a parameter group. `None` for a group of other messages.
    fn of_group(pgn: u32) -> Option<Direction> {
        match pgn {
            ECU_TO_VT => Some(Direction::ToTerminal),
            VT_TO_ECU => Some(Direction::OfTerminal),
            _ => None,
        }
    }

    /// The parameter group of its messages.
    pub fn group(self) -> u32 {
        match self {
            Direction::ToTerminal => ECU_TO_VT,
            Direction::OfTerminal => VT_TO_ECU,
        }
    }
}

/// A message between an implement and a terminal.
#[derive(Clone, Copy, Drop)]
pub struct Message<'a> {
    /// Who sends it.
    pub direction: Direction,
    /// The address of the sender.
    pub source: u8,
    /// The address to which it goes, 255 for all.
    pub destination: u8,
    /// The function, which is the first of its bytes.
    pub function: u8,
    /// All of its bytes.
    pub bytes: &'a [u8],
}

impl<'a> Message<'a> {
    /// The message that is whole with a frame: the one in the frame, or the one in packets of which it is the last. `None` if there is
    /// none, or if it has no bytes.
    pub fn whole_with(frame: &'a Frame, sent: Option<&'a SentMessage>) -> Option<Message<'a>> {
        let (pgn, source, destination, bytes) = match sent {
            Some(sent) => (
                sent.pgn,
                sent.source,
                sent.destination,
                sent.bytes.as_slice(),
            ),
            None => {
                let destination = frame.id.destination()?;
                let bytes = frame.bytes.as_slice();
                (frame.id.pgn(), frame.id.source(), destination, bytes)
            }
        };
        Some(Message {
            direction: Direction::of_group(pgn)?,
            source,
            destination,
            function: *bytes.first()?,
            bytes,
        })
    }
}

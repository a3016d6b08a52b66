//! What the frames of the transport protocols say about messages to the recorded terminal.

use byteorder::{ByteOrder, LittleEndian};
use vt_can::Frame;
use vt_can::assigned::{
    ABORT, ETP_CM, ETP_DPO, ETP_DT, ETP_END, ETP_RTS, TP_CM, TP_DT, TP_END, TP_RTS, VT_TO_ECU,
};

/// The most bytes of a message by ETP (docs/PROFILE.md, "The ETP receiver").
const MOST_BYTES: u32 = 1_048_576;

/// A sender of messages to the terminal, and its protocol: TP or ETP.
#[derive(Clone, Copy, PartialEq, Eq, PartialOrd, Ord)]
pub(crate) struct Sender {
    pub(crate) is_extended: bool,
    pub(crate) address: u8,
}

/// What a frame says about a message in packets to the terminal.
#[derive(Clone, Copy)]
pub(crate) enum Mark {
    /// A node requests to send one, of so many bytes.
    Request(Sender, u32),
    /// A node requests to send one, and this terminal refuses that.
    Refused(Sender),
    /// The next packets are counted from here, and they are so many.
    Offset(Sender, u32, u8),
    /// A packet, with its number after the offset.
    Packet(Sender, u8, [u8; 7]),
    /// The terminal has received the message.
    End(Sender),
    /// The node or the terminal aborts it.
    Abort(Sender),
}

impl Mark {
    /// What a frame from or to the terminal at an address says. `None` for any other frame.
    #[inline]
    pub(crate) fn in_frame(frame: &Frame, own: u8) -> Option<Mark> {
        let group = frame.id.pgn();
        if !matches!(group, TP_CM | TP_DT | ETP_CM | ETP_DT) {
            return None;
        }
        let source = frame.id.source();
        let destination = frame.id.destination()?;
        let is_extended = matches!(group, ETP_CM | ETP_DT);
        let address = if destination == own {
            source
        } else {
            destination
        };
        let sender = Sender {
            is_extended,
            address,
        };
        let bytes = frame.bytes.as_slice();
        if destination == own {
            Mark::to_terminal(sender, group, bytes)
        } else if source == own {
            Mark::of_terminal(sender, group, bytes)
        } else {
            None
        }
    }

    /// What a frame from the terminal says.
    fn of_terminal(sender: Sender, group: u32, bytes: &[u8]) -> Option<Mark> {
        let [control, _, _, _, _, e, f, g] = bytes else {
            return None;
        };
        match (group, *control) {
            (TP_CM, TP_END) | (ETP_CM, ETP_END) => Some(Mark::End(sender)),
            (TP_CM | ETP_CM, ABORT) => Mark::abort(sender, &[*e, *f, *g]),
            _ => None,
        }
    }

    /// What a frame of eight bytes from a node to the terminal says.
    fn to_terminal(sender: Sender, group: u32, bytes: &[u8]) -> Option<Mark> {
        let [control, a, b, c, d, e, f, g] = bytes else {
            return None;
        };
        let packet = [*a, *b, *c, *d, *e, *f, *g];
        match (group, *control) {
            (TP_DT | ETP_DT, number) => Some(Mark::Packet(sender, number, packet)),
            (TP_CM, TP_RTS) => {
                let size = u32::from(u16::from_le_bytes([*a, *b]));
                let is_met = (9..=1785).contains(&size) && u32::from(*c) == size.div_ceil(7);
                Some(Mark::request(sender, size, is_met))
            }
            (ETP_CM, ETP_RTS) => {
                let size = u32::from_le_bytes([*a, *b, *c, *d]);
                let is_met = (9..=MOST_BYTES).contains(&size);
                Some(Mark::request(sender, size, is_met))
            }
            (ETP_CM, ETP_DPO) => {
                let offset = u32::from_le_bytes([*b, *c, *d, 0]);
                Some(Mark::Offset(sender, offset, *a))
            }
            (TP_CM | ETP_CM, ABORT) => Mark::abort(sender, &[*e, *f, *g]),
            _ => None,
        }
    }

    /// The request to send a message of so many bytes, which this terminal meets or refuses.
    fn request(sender: Sender, size: u32, is_met: bool) -> Mark {
        if is_met {
            Mark::Request(sender, size)
        } else {
            Mark::Refused(sender)
        }
    }

    /// The abort of a message of a parameter group. `None` for one of the terminal's own messages.
    fn abort(sender: Sender, pgn: &[u8]) -> Option<Mark> {
        if pgn.len() != 3 {
            return None;
        }
        let is_own = !sender.is_extended && LittleEndian::read_u24(pgn) == VT_TO_ECU;
        (!is_own).then_some(Mark::Abort(sender))
    }
}

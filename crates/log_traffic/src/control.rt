//! Control messages of both transport protocols.

use crate::requests::Channel;
use byteorder::{ByteOrder, LittleEndian};
use vt_can::Frame;
use vt_can::assigned::{ABORT, ETP_CM, ETP_CTS, ETP_END, ETP_RTS, TP_CM, TP_CTS, TP_END, TP_RTS};

/// What a control message of a transfer says.
#[derive(Clone, Copy, PartialEq, Eq)]
pub enum Control {
    /// The request to send a message of so many bytes.
    Request { size: u32, pgn: u32 },
    /// The receiver is ready for packets, or asks to wait.
    Clear,
    /// The receiver has the message.
    End,
    /// One of both ends breaks off the transfer of a message.
    Abort { pgn: u32 },
}

/// The control message in a frame, with the channel from its sender to its destination. `None` for any other frame.
pub fn control_in(frame: &Frame) -> Option<(Channel, Control)> {
    let is_extended = match frame.id.pgn() {
        TP_CM => false,
        ETP_CM => true,
        _ => return None,
    };
    let [control, s0, s1, s2, s3, group @ ..] = frame.bytes.as_slice() else {
        return None;
    };
    if group.len() < 3 {
        return None;
    }
    let pgn = LittleEndian::read_u24(group);
    let control = match (is_extended, *control) {
        (false, TP_RTS) => Control::Request {
            size: u32::from_le_bytes([*s0, *s1, 0, 0]),
            pgn,
        },
        (true, ETP_RTS) => Control::Request {
            size: u32::from_le_bytes([*s0, *s1, *s2, *s3]),
            pgn,
        },
        (false, TP_CTS) | (true, ETP_CTS) => Control::Clear,
        (false, TP_END) | (true, ETP_END) => Control::End,
        (_, ABORT) => Control::Abort { pgn },
        _ => return None,
    };
    let channel = Channel {
        is_extended,
        source: frame.id.source(),
        destination: frame.id.destination()?,
    };
    Some((channel, control))
}

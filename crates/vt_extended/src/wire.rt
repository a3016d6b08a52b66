//! The frames of the extended transport protocol as bytes (ISO 11783-3; docs/PROFILE.md, "Transport messages").

ghost use Rattle.std.specs.Prelude.{◌≡◌, length};
ghost use Rattle.vt_extended.specs.Wire.{etp_frame, connection_management, reply_frame, reply_bytes};

use crate::messages::{EtpFrame, Opening, Part, Reply};
use byteorder::{ByteOrder, LittleEndian};
use vt_can::assigned::{ABORT, ETP_CM, ETP_CTS, ETP_DPO, ETP_DT, ETP_END, ETP_RTS};
use vt_can::{Frame, abort_bytes, frame_of, is_transport_frame_to, numbered_packet, three_bytes};

/// Decodes a frame of the extended transport protocol to the node's address with 8 bytes. `None` for any other frame.
pub(crate) fn etp_frame(own_address: u8, frame: &Frame) -> Option<EtpFrame>
    ensures { result ≡ etp_frame own_address frame.now }
{
    if !is_transport_frame_to(own_address, frame) {
        return None;
    }
    let bytes = frame.bytes.as_slice();
    match frame.id.pgn() {
        ETP_CM => Some(connection_management(bytes)),
        ETP_DT => {
            let (number, bytes) = numbered_packet(bytes);
            Some(EtpFrame::Part(Part::Packet { number, bytes }))
        }
        _ => None,
    }
}

fn connection_management(bytes: &[u8]) -> EtpFrame
    requires { length bytes.now ≡ 8 }
    ensures { result ≡ connection_management bytes.now }
{
    match bytes[0] {
        ETP_RTS => EtpFrame::Rts(Opening {
            size: LittleEndian::read_u32(&bytes[1..]),
            pgn: LittleEndian::read_u24(&bytes[5..]),
        }),
        ETP_DPO => EtpFrame::Part(Part::Offset {
            count: bytes[1],
            offset: LittleEndian::read_u24(&bytes[2..]),
        }),
        ABORT => EtpFrame::Aborted,
        _ => EtpFrame::Other,
    }
}

/// The frame of a reply from this node to another.
pub(crate) fn reply_frame(own_address: u8, to: u8, reply: Reply) -> Frame
    ensures { result ≡ reply_frame own_address to reply }
{
    frame_of(ETP_CM, own_address, to, reply_bytes(reply))
}

fn reply_bytes(reply: Reply) -> [u8; 8]
    ensures { result ≡ reply_bytes reply }
{
    match reply {
        Reply::ClearToSend { count, next, pgn } => {
            let [next_0, next_1, next_2] = three_bytes(next);
            let [pgn_0, pgn_1, pgn_2] = three_bytes(pgn);
            [ETP_CTS, count, next_0, next_1, next_2, pgn_0, pgn_1, pgn_2]
        }
        Reply::End { size, pgn } => {
            let [size_0, size_1, size_2, size_3] = size.to_le_bytes();
            let [pgn_0, pgn_1, pgn_2] = three_bytes(pgn);
            [ETP_END, size_0, size_1, size_2, size_3, pgn_0, pgn_1, pgn_2]
        }
        Reply::Abort { reason, pgn } => abort_bytes(reason, pgn),
    }
}

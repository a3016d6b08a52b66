//! The frames of the transport protocol as bytes (ISO 11783-3; docs/PROFILE.md, "Transport messages").

ghost use Rattle.std.specs.Prelude.{◌≡◌, ◌≤◌, ◌∷◌, length};
ghost use Rattle.vt_can.specs.Assigned.{TP_DT};
ghost use Rattle.vt_can.specs.frames.Frame.{frame_of};
ghost use Rattle.vt_transport.specs.Wire.{ends_message, tp_frame, connection_management, reply_frame, reply_bytes, rts_frame};

use crate::messages::{Opening, Reply, TpFrame};
use byteorder::{ByteOrder, LittleEndian};
use vt_can::assigned::{ABORT, FILL, NO_LIMIT, TP_CM, TP_CTS, TP_DT, TP_END, TP_RTS};
use vt_can::{Frame, abort_bytes, frame_of, is_transport_frame_to, numbered_packet, three_bytes};

/// Decodes a frame of the transport protocol to the node's address with 8 bytes. `None` for any other frame.
pub(crate) fn tp_frame(own_address: u8, frame: &Frame) -> Option<TpFrame>
    ensures { result ≡ tp_frame own_address frame.now }
{
    if !is_transport_frame_to(own_address, frame) {
        return None;
    }
    let bytes = frame.bytes.as_slice();
    match frame.id.pgn() {
        TP_CM => Some(connection_management(bytes)),
        TP_DT => {
            let (number, bytes) = numbered_packet(bytes);
            Some(TpFrame::Data { number, bytes })
        }
        _ => None,
    }
}

fn connection_management(bytes: &[u8]) -> TpFrame
    requires { length bytes.now ≡ 8 }
    ensures { result ≡ connection_management bytes.now }
{
    let pgn = LittleEndian::read_u24(&bytes[5..]);
    match bytes[0] {
        TP_RTS => TpFrame::Rts(Opening {
            size: LittleEndian::read_u16(&bytes[1..]),
            packets: bytes[3],
            most: bytes[4],
            pgn,
        }),
        TP_CTS => TpFrame::Cts {
            count: bytes[1],
            next: bytes[2],
            pgn,
        },
        TP_END => TpFrame::EndOfMessage { pgn },
        ABORT => TpFrame::Aborted { pgn },
        _ => TpFrame::Other,
    }
}

/// Whether a frame acknowledges that its source received a whole message of this node, of this parameter group (End of
/// Message Acknowledgment).
pub fn ends_message(own_address: u8, pgn: u32, frame: &Frame) -> bool
    ensures { result ≡ ends_message pgn (tp_frame own_address frame.now) }
{
    match tp_frame(own_address, frame) {
        Some(TpFrame::EndOfMessage { pgn: ended }) => ended == pgn,
        _ => false,
    }
}

/// The frame of a reply from this node to another.
pub(crate) fn reply_frame(own_address: u8, to: u8, reply: Reply) -> Frame
    ensures { result ≡ reply_frame own_address to reply }
{
    frame_of(TP_CM, own_address, to, reply_bytes(reply))
}

fn reply_bytes(reply: Reply) -> [u8; 8]
    ensures { result ≡ reply_bytes reply }
{
    match reply {
        Reply::ClearToSend { count, next, pgn } => {
            let [low, middle, high] = three_bytes(pgn);
            [TP_CTS, count, next, FILL, FILL, low, middle, high]
        }
        Reply::End { size, packets, pgn } => {
            let [size_low, size_high] = size.to_le_bytes();
            let [low, middle, high] = three_bytes(pgn);
            [
                TP_END, size_low, size_high, packets, FILL, low, middle, high,
            ]
        }
        Reply::Abort { reason, pgn } => abort_bytes(reason, pgn),
    }
}

/// The request to send a message, with FF as the greatest number of packets of one CTS.
pub(crate) fn rts_frame(own_address: u8, to: u8, size: u16, pgn: u32) -> Frame
    requires { size ≤ 1785 }
    ensures { result ≡ rts_frame own_address to size pgn }
{
    let [size_low, size_high] = size.to_le_bytes();
    let [low, middle, high] = three_bytes(pgn);
    let packets = ((size + 6) / 7) as u8;
    let bytes = [
        TP_RTS, size_low, size_high, packets, NO_LIMIT, low, middle, high,
    ];
    frame_of(TP_CM, own_address, to, bytes)
}

/// The frame of a packet.
pub(crate) fn data_frame(own_address: u8, to: u8, number: u8, packet: [u8; 7]) -> Frame
    ensures { result ≡ frame_of TP_DT own_address to (number ∷ packet) }
{
    let [a, b, c, d, e, f, g] = packet;
    frame_of(TP_DT, own_address, to, [number, a, b, c, d, e, f, g])
}

//! Parts of transfers: what a frame of a transport protocol says (ISO 11783-3; docs/PROFILE.md, "Transport messages").

ghost use Rattle.std.specs.Prelude.{◌≡◌, length};
ghost use Rattle.log_listen.specs.Parts.{is_extended, managed, extended_managed, part_in};

use byteorder::{ByteOrder, LittleEndian};
use vt_can::assigned::{ABORT, ETP_CM, ETP_DPO, ETP_DT, ETP_RTS, TP_CM, TP_DT, TP_RTS};
use vt_can::{Frame, numbered_packet};

/// What a frame says about the transfer of a message. Public only because the definitions of vt_tool_laws use it.
#[derive(Clone, Copy)]
pub enum Part {
    /// A request to send a message.
    Request { size: u32, pgn: u32 },
    /// A packet, with its number after the last offset.
    Packet { number: u8, bytes: [u8; 7] },
    /// The number of packets before those that come next.
    Offset(u32),
    /// The abort of the transfer of a message.
    Abort { pgn: u32 },
}

/// The part in a frame of eight bytes. `None` for any other frame.
pub(crate) fn part_in(frame: &Frame) -> Option<Part>
    ensures { result ≡ part_in frame.now }
{
    let bytes = frame.bytes.as_slice();
    if bytes.len() != 8 {
        return None;
    }
    match frame.id.pgn() {
        TP_CM => managed(bytes),
        ETP_CM => extended_managed(bytes),
        TP_DT | ETP_DT => {
            let (number, bytes) = numbered_packet(bytes);
            Some(Part::Packet { number, bytes })
        }
        _ => None,
    }
}

/// Whether a parameter group is of the extended transport protocol.
pub(crate) fn is_extended(pgn: u32) -> bool
    ensures { result ≡ is_extended pgn }
{
    pgn == ETP_CM || pgn == ETP_DT
}

fn managed(bytes: &[u8]) -> Option<Part>
    requires { length bytes.now ≡ 8 }
    ensures { result ≡ managed bytes.now }
{
    let pgn = LittleEndian::read_u24(&bytes[5..]);
    match bytes[0] {
        TP_RTS => Some(Part::Request {
            size: u32::from(LittleEndian::read_u16(&bytes[1..])),
            pgn,
        }),
        ABORT => Some(Part::Abort { pgn }),
        _ => None,
    }
}

fn extended_managed(bytes: &[u8]) -> Option<Part>
    requires { length bytes.now ≡ 8 }
    ensures { result ≡ extended_managed bytes.now }
{
    let pgn = LittleEndian::read_u24(&bytes[5..]);
    match bytes[0] {
        ETP_RTS => Some(Part::Request {
            size: LittleEndian::read_u32(&bytes[1..]),
            pgn,
        }),
        ETP_DPO => Some(Part::Offset(LittleEndian::read_u24(&bytes[2..]))),
        ABORT => Some(Part::Abort { pgn }),
        _ => None,
    }
}

//! The bytes common to the frames of both transport protocols (ISO 11783-3; docs/PROFILE.md, "Transport messages").

ghost use Rattle.std.specs.Prelude.{◌≡◌, ◌≤◌, ◌+◌, ◌++◌, min, length, take, drop, slice_index, vec_len, vec_capacity};
ghost use Rattle.byteorder.specs.Endian.{little_bytes};
ghost use Rattle.vt_can.specs.frames.Identifier.{HasDestination};
ghost use Rattle.vt_can.specs.frames.Frame.{frame_of};
ghost use Rattle.vt_can.specs.transport.Wire.{is_transport_frame_to, abort_bytes, reason_code};

use crate::assigned::{ABORT, FILL};
use crate::frames::{CanId, Frame};
use arrayvec::ArrayVec;

/// Why a node ends a session of a transport protocol.
#[derive(Clone, Copy)]
pub enum Reason {
    /// The message has more bytes than the node accepts.
    TooLarge,
    /// No frame of the session arrived within the timeout.
    Timeout,
    /// A frame out of order, or a request that no session can meet.
    Disorder,
}

/// Whether a frame is addressed to this node and has eight bytes, as every frame of a transport protocol has.
pub fn is_transport_frame_to(own_address: u8, frame: &Frame) -> bool
    ensures { result ≡ is_transport_frame_to own_address frame.now }
{
    frame.id.destination() == Some(own_address) && frame.bytes.len() == 8
}

/// The sequence number and the packet in the bytes of a data transfer.
pub fn numbered_packet(bytes: &[u8]) -> (u8, [u8; 7])
    requires { length bytes.now ≡ 8 }
    ensures { result ≡ (slice_index bytes.now 0, drop 1 bytes.now) }
{
    let mut packet = [0; 7];
    packet.copy_from_slice(&bytes[1..]);
    (bytes[0], packet)
}

/// A frame of priority 7 from one node to another, of a parameter group with a destination.
pub fn frame_of(pgn: u32, own_address: u8, to: u8, bytes: [u8; 8]) -> Frame
    requires { HasDestination pgn }
    ensures { result ≡ frame_of pgn own_address to bytes }
{
    Frame {
        id: CanId::new(7, pgn, to, own_address),
        bytes: ArrayVec::from(bytes),
    }
}

/// The bytes of an abort, for a session whose message is of this parameter group.
pub fn abort_bytes(reason: Reason, pgn: u32) -> [u8; 8]
    ensures { result ≡ abort_bytes reason pgn }
{
    let [low, middle, high] = three_bytes(pgn);
    [ABORT, code(reason), FILL, FILL, FILL, low, middle, high]
}

/// The three low bytes of a number, the lowest first.
pub fn three_bytes(number: u32) -> [u8; 3]
    ensures { result ≡ little_bytes 3 number }
{
    let [low, middle, high, _] = number.to_le_bytes();
    [low, middle, high]
}

/// Appends a packet to a message of `size` bytes, without the padding after its end. Does not allocate.
pub fn append_packet(bytes: &mut Vec<u8>, size: usize, packet: [u8; 7])
    requires lacking { vec_len bytes.old ≤ size }
    requires capacity { size ≤ vec_capacity bytes.old }
    ensures items { bytes.new.items ≡ take size (bytes.old.items ++ packet) }
    ensures len { vec_len bytes.new ≡ min size (vec_len bytes.old + 7) }
    ensures capacity { vec_capacity bytes.new ≡ vec_capacity bytes.old }
{
    let remaining = size - bytes.len();
    append(bytes, &packet[..remaining.min(7)]);
}

// Appends bytes within the spare capacity.
fn append(bytes: &mut Vec<u8>, part: &[u8])
    requires { vec_len bytes.old + length part.now ≤ vec_capacity bytes.old }
    ensures items { bytes.new.items ≡ bytes.old.items ++ part.now }
    ensures len { vec_len bytes.new ≡ vec_len bytes.old + length part.now }
    ensures capacity { vec_capacity bytes.new ≡ vec_capacity bytes.old }
{
    for byte in part {
        bytes.push_reserved(*byte);
    }
}

fn code(reason: Reason) -> u8
    ensures { result ≡ reason_code reason }
{
    match reason {
        Reason::TooLarge => 2,
        Reason::Timeout => 3,
        Reason::Disorder => 7,
    }
}

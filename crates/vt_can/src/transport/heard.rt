//! The answer of a receiver to a frame.

use crate::frames::Frame;
use crate::transport::bytes::Bytes;

/// The answer of a receiver to a frame. The caller sends the reply.
#[derive(Drop)]
pub enum Heard {
    Nothing,
    Reply(Frame),
    /// A whole message. The caller sends `reply`, the acknowledgement of its end, before it processes the message.
    Message {
        source: u8,
        pgn: u32,
        bytes: Bytes,
        reply: Frame,
    },
}

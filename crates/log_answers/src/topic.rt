//! What the messages of a terminal are about.

ghost use Rattle.std.specs.Prelude.{◌≡◌};
ghost use Rattle.log_answers.specs.Topics as topics;

use byteorder::{ByteOrder, LittleEndian};
use vt_can::Frame;
use vt_can::assigned::VT_TO_ECU;
use vt_commands::CommandRow;

/// What a message of a terminal is about.
#[derive(Clone, Copy, PartialEq, Eq)]
pub struct Topic {
    /// The address to which the message goes, 255 for all.
    pub destination: u8,
    /// The function: the first byte of the message.
    pub function: u8,
    /// The object that the reply to a command names. `None` for any other message, and for a reply that names no object.
    pub object: Option<u16>,
}

/// The topic of a frame, or `None` for a frame that is no message of a terminal.
pub(crate) fn topic_of(frame: &Frame) -> Option<Topic>
    ensures { result ≡ topics.topic_of frame.now }
{
    if frame.id.pgn() != VT_TO_ECU {
        return None;
    }
    let destination = frame.id.destination()?;
    let bytes = frame.bytes.as_slice();
    let function = *bytes.first()?;
    Some(Topic {
        destination,
        function,
        object: object_in(function, bytes),
    })
}

/// The object that a reply names.
fn object_in(function: u8, bytes: &[u8]) -> Option<u16>
    ensures { result ≡ topics.object_in function bytes.now }
{
    let place = CommandRow::of(function)?.object_at?;
    let id = bytes.get(place..place + 2)?;
    Some(LittleEndian::read_u16(id))
}

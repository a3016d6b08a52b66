//! The messages of the recorded terminal.

ghost use Rattle.std.specs.Prelude.{◌≡◌, OnOk, IfOk};
ghost use Rattle.std.specs.Option.{option_to_list};
ghost use Rattle.log_answers.specs.Conversations as conversations;

use crate::said::{Said, said_in};
use crate::tally::{Tally, count};
use arrayvec::ArrayVec;
use std::alloc::AllocError;
use vt_can::Frame;
use vt_can::assigned::{VT_STATUS, VT_TO_ECU};

/// The address of the recorded terminal, and the place of a frame in its log.
#[derive(Clone, Copy, PartialEq, Eq)]
pub(crate) struct FramePlace {
    /// The address of the recorded terminal.
    pub(crate) own: u8,
    /// The number of the line.
    pub(crate) line: u64,
    /// The latest time so far, in microseconds.
    pub(crate) now: u64,
}

/// The message that the recorded terminal sends in a frame. `None` if the frame is no message of this terminal, or repeats its last
/// status message.
pub(crate) fn recorded_in(
    place: FramePlace,
    frame: &Frame,
    status: &mut ArrayVec<u8, 8>,
    tally: &mut Tally,
) -> Result<Option<Said>, AllocError>
    ensures said { IfOk result (λ said. option_to_list said ≡ conversations.recorded_in place.own place.line place.now status.old.items frame.now) }
    ensures status { OnOk result (status.new.items ≡ conversations.status_in place.own status.old.items frame.now) }
{
    if !is_message_of(place.own, frame) {
        if frame.id.source() == place.own {
            count(&mut tally.not_compared);
        }
        return Ok(None);
    }
    if !is_status(frame) {
        return said_in(place.line, place.now, frame);
    }
    if frame.bytes == *status {
        return Ok(None);
    }
    *status = frame.bytes.clone()?;
    said_in(place.line, place.now, frame)
}

/// Whether a frame is a message of the terminal at an address.
fn is_message_of(own: u8, frame: &Frame) -> bool
    ensures { result ≡ conversations.is_message_of own frame.now }
{
    frame.id.source() == own && frame.id.pgn() == VT_TO_ECU
}

/// Whether a message is a status message.
fn is_status(frame: &Frame) -> bool
    ensures { result ≡ conversations.is_status frame.now.bytes.items }
{
    frame.bytes.first() == Some(&VT_STATUS)
}

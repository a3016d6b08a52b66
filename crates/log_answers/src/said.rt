//! Messages of a terminal in a log.

ghost use Rattle.std.specs.Prelude.{◌≡◌, IfOk};
ghost use Rattle.log_answers.specs.Messages as messages;

use crate::topic::{Topic, topic_of};
use arrayvec::ArrayVec;
use std::alloc::AllocError;
use vt_can::Frame;

/// A message of a terminal, and its place in the log.
#[derive(Clone, Drop)]
pub struct Said {
    /// The number of the line.
    pub line: u64,
    /// The latest time of the log up to this line, in microseconds.
    pub time: u64,
    /// What the message is about.
    pub topic: Topic,
    /// The bytes of the message.
    pub bytes: ArrayVec<u8, 8>,
}

/// The message of a frame at a line, or `None` for a frame without a topic.
pub(crate) fn said_in(line: u64, time: u64, frame: &Frame) -> Result<Option<Said>, AllocError>
    ensures { IfOk result (λ said. said ≡ messages.said_in line time frame.now) }
{
    let Some(topic) = topic_of(frame) else {
        return Ok(None);
    };
    Ok(Some(Said {
        line,
        time,
        topic,
        bytes: frame.bytes.clone()?,
    }))
}

/// Whether a message is on a topic.
pub(crate) fn is_on(topic: Topic, said: &Said) -> bool
    ensures { result ≡ messages.is_on topic said.now }
{
    said.topic == topic
}

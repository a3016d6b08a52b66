//! The meaning of a frame in words, for the log window of a host. The call makes it the text of the session, and returns the number of
//! its bytes, or 2^64 - 1 if memory was refused.

ghost use Rattle.vt_session.specs.Words.{WritesWords};

use crate::session::{Session, frame_input};
use check_text::Names;
use std::alloc::{AllocError, Global};
use vt_can::Frame;
use vt_messages_text::{AddressedSentence, Sentence};
use vt_server::{Input, Terminal};

/// Writes the meaning of a frame, with the addresses of its source and its destination, and returns the number of bytes. If the numbers
/// are not those of a frame, the text is empty. Objects are named as the terminal has them now, so a host calls this before the terminal
/// receives the frame.
pub fn words(session: &mut Session, id: u32, count: u32, bits: u64) -> u64
    ensures { WritesWords session.old id count bits session.new result }
{
    session.text.clear();
    let Some(Input::Frame { frame, .. }) = frame_input(0, id, count, bits) else {
        return 0;
    };
    let alloc = *session.text.allocator();
    match sentence_of(alloc, &session.terminal, &frame) {
        Ok(text) => {
            session.text = text.into_bytes();
            session.text.len() as u64
        }
        Err(_) => u64::MAX,
    }
}

/// The meaning of a frame, with the addresses of its source and its destination. Objects have no names.
pub fn sentence_of(
    alloc: Global,
    terminal: &Terminal,
    frame: &Frame,
) -> Result<String, AllocError> {
    let names = &Names::new(alloc);
    let sentence = Sentence {
        frame,
        terminal,
        names,
    };
    format!(in alloc; "{}", AddressedSentence(sentence))
}

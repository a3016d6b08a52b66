//! Tests of vt_extended.

mod serving;
mod want_of_memory;

use std::test::Fail;
use vt_can::{Line, parse_line, write_frame};
use vt_extended::*;

const NODE: u8 = 0x26;

// The expected answer of a receiver to a frame.
#[derive(Clone, Copy)]
enum Wanted {
    Silence,
    Reply(&'static [u8]),
    Message(&'static [u8], &'static [u8]),
}

fn is_answer(heard: Heard, wanted: Wanted) -> bool {
    match (heard, wanted) {
        (Heard::Nothing, Wanted::Silence) => true,
        (Heard::Reply(frame), Wanted::Reply(text)) => write_frame(&frame).as_slice() == text,
        (Heard::Message { bytes, reply, .. }, Wanted::Message(text, message)) => {
            write_frame(&reply).as_slice() == text && bytes.into_vec().as_slice() == message
        }
        _ => false,
    }
}

// Whether a receiver gives this answer to the frame of a line.
fn answers(receiver: &mut Receiver, line: &[u8], wanted: Wanted) -> Result<bool, OutOfMemory> {
    match parse_line(line) {
        Ok(Line::Frame { time, frame }) => Ok(is_answer(receiver.hear(time, &frame)?, wanted)),
        _ => Ok(false),
    }
}

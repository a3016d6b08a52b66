//! Tests of vt_transport.

mod serving;
mod want_of_memory;

use arrayvec::ArrayVec;
use std::process::Abort;
use std::test::Fail;
use vt_can::{Frame, Line, parse_line, write_frame};
use vt_transport::*;

const NODE: u8 = 0x26;

// The expected answer of a receiver to a frame.
#[derive(Clone, Copy)]
enum Wanted {
    Silence,
    Reply(&'static [u8]),
    Message(&'static [u8], &'static [u8]),
}

fn is_answer(heard: Heard, wanted: Wanted) -> bool {
    match (heard, wanted) {
        (Heard::Nothing, Wanted::Silence) => true,
        (Heard::Reply(frame), Wanted::Reply(text)) => write_frame(&frame).as_slice() == text,
        (Heard::Message { bytes, reply, .. }, Wanted::Message(text, message)) => {
            write_frame(&reply).as_slice() == text && bytes.into_vec().as_slice() == message
        }
        _ => false,
    }
}

// Whether a receiver gives this answer to the frame of a line.
fn answers(receiver: &mut Receiver, line: &[u8], wanted: Wanted) -> Result<bool, OutOfMemory> {
    match parse_line(line) {
        Ok(Line::Frame { time, frame }) => Ok(is_answer(receiver.hear(time, &frame)?, wanted)),
        _ => Ok(false),
    }
}

// A message of 1785 bytes, the most, and its packets after a CTS for all of them.
#[test]
fn the_longest_message(rt: HostRuntime) -> Result<(), Fail> {
    let mut message = Vec::new(rt.alloc());
    for number in 1..=255u8 {
        message.extend_from_slice(&[number; 7])?;
    }
    let mut sender = Sender::new(rt.alloc(), NODE);
    let request = sender.start(0, 0x80, 0xE600, &message)?;
    assert_eq!(rt;
        write_frame(&request).as_slice(),
        b"1CEC8026#10F906FFFF00E600".as_slice()
    );
    let Ok(Line::Frame { time, frame }) = parse_line(b"(1.000000) can0 1CEC2680#11FF01FFFF00E600")
    else {
        return Err(Fail::new("no frame"));
    };
    let frames = sender.hear(time, &frame);
    assert_eq!(rt; frames.len(), 255);
    for (number, packet) in (1..=255u8).zip(frames.as_slice()) {
        assert_eq!(rt; packet.bytes, ArrayVec::from([number; 8]), "{number}");
    }
    Ok(())
}

#[test]
fn printed_faults(rt: HostRuntime) -> Result<(), Fail> {
    for (fault, wanted) in [
        (
            SendFault::Busy,
            "a message to that destination is still being sent",
        ),
        (SendFault::Size, "a message has 9 to 1785 bytes"),
        (
            SendFault::OutOfMemory,
            "the memory for the message was refused",
        ),
    ] {
        let text = format!(in rt.alloc(); "{}", fault)?;
        assert_eq!(rt; text.as_str(), wanted);
    }
    Ok(())
}

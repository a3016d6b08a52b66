//! Tests of calls of the TP receiver and sender that are refused memory: they change nothing, and may be repeated.

use super::*;

const REQUEST: &[u8] = b"(1.000000) can0 1CEC2680#10090002FF00E700";

const CLEAR: Wanted = Wanted::Reply(b"1CEC8026#110201FFFF00E700");

const FIRST: &[u8] = b"(1.000000) can0 1CEB2680#01B4E8036400FFFF";

const LAST: &[u8] = b"(1.000000) can0 1CEB2680#020500FFFFFFFFFF";

const WHOLE: Wanted = Wanted::Message(
    b"1CEC8026#13090002FF00E700",
    b"\xB4\xE8\x03\x64\x00\xFF\xFF\x05\x00",
);

// Whether a session of nine bytes opens, and accepts the first of two packets.
fn opens(receiver: &mut Receiver) -> Result<bool, OutOfMemory> {
    Ok(answers(receiver, REQUEST, CLEAR)? && answers(receiver, FIRST, Wanted::Silence)?)
}

fn opens_again(receiver: &mut Receiver) -> Result<bool, OutOfMemory> {
    match opens(receiver) {
        Ok(same) => Ok(same),
        Err(_) => opens(receiver),
    }
}

// Whether a second request opens a session, and keeps the open session if it is refused memory.
fn hears_again(receiver: &mut Receiver) -> Result<bool, OutOfMemory> {
    let opened = match opens(receiver) {
        Ok(same) => same,
        Err(_) => answers(receiver, LAST, WHOLE)? && opens(receiver)?,
    };
    Ok(opened && answers(receiver, LAST, WHOLE)?)
}

// Whether a prepared request is not refused memory, and a refused preparation keeps the open session.
fn prepares_again(receiver: &mut Receiver) -> Result<bool, OutOfMemory> {
    let Ok(Line::Frame { time, frame }) = parse_line(REQUEST) else {
        return Ok(false);
    };
    let stayed = match receiver.prepare(time, &frame) {
        Ok(_) => true,
        Err(_) => {
            let stayed = answers(receiver, LAST, WHOLE)?;
            receiver.prepare(time, &frame)?;
            stayed
        }
    };
    let opened = opens(receiver).unwrap_or(false);
    Ok(stayed && opened && answers(receiver, LAST, WHOLE)?)
}

const MESSAGE: &[u8] = b"\x08\x2D\x01\x08ABCDEF";

const STARTED: &[u8] = b"1CEC8026#100A0002FF00E600";

// Starts to send the message, and repeats the call after a refusal.
fn start_again(rt: &impl Abort, sender: &mut Sender) -> Result<Frame, SendFault> {
    match sender.start(0, 0x80, 0xE600, MESSAGE) {
        Err(SendFault::OutOfMemory) => {
            assert!(rt; !sender.is_sending(0x80));
            sender.start(0, 0x80, 0xE600, MESSAGE)
        }
        other => other,
    }
}

#[test]
fn want_of_memory(rt: HostRuntime) -> Result<(), Fail> {
    let mut receiver = Receiver::new(rt.alloc(), NODE);
    let heard = opens_again(&mut receiver)? && hears_again(&mut receiver)?;
    let prepared = opens_again(&mut receiver)? && prepares_again(&mut receiver)?;
    assert!(rt; heard && prepared);
    let mut sender = Sender::new(rt.alloc(), NODE);
    let started = start_again(&rt, &mut sender)?;
    let same = write_frame(&started).as_slice() == STARTED;
    assert!(rt; same && sender.is_sending(0x80));
    Ok(())
}

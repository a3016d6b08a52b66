//! Tests of ETP receivers that prepare each frame: the size and the first byte of its message.

ghost use Rattle.std.specs.Prelude.{◌≡◌, IfOk, OnErr};
ghost use Rattle.vt_can.specs.frames.Frame.{source_of};
ghost use Rattle.vt_can.specs.transport.Messages.{size_and_first_byte};
ghost use Rattle.vt_can.specs.transport.Receivers.{timely_outcome, AnswersWith};
ghost use Rattle.vt_can.specs.transport.Bus.{Serves, input_of};
ghost use Rattle.vt_extended.specs.Protocol.{protocol};

use super::*;
use std::alloc::Global;
use vt_can::Frame;

// Serves an input as a node does: reserves memory, ends the overdue sessions, and handles the frame, which
// is not refused memory then.
fn served(
    receiver: &mut Receiver,
    now: u64,
    frame: &Frame,
) -> Result<(Option<(usize, u8)>, Heard), OutOfMemory>
    ensures err { OnErr result (receiver.new.sessions ≡ receiver.old.sessions) }
    ensures own_address { IfOk result (λ done. receiver.new.own_address ≡ receiver.old.own_address) }
    ensures serves { IfOk result (λ done. Serves protocol receiver.old.sessions receiver.new.sessions
        (input_of protocol receiver.old.own_address now frame.now) done.1) }
    ensures heard { IfOk result (λ done. AnswersWith protocol receiver.old.own_address (source_of frame.now)
        (timely_outcome protocol receiver.old now frame.now).reply
        (timely_outcome protocol receiver.old now frame.now).message done.1) }
    ensures answer { IfOk result
        (λ done. done.0 ≡ size_and_first_byte (timely_outcome protocol receiver.old now frame.now).message) }
{
    let answer = receiver.prepare(now, frame)?;
    while let Some(_abort) = receiver.expire(now) {}
    match receiver.hear(now, frame) {
        Ok(heard) => Ok((answer, heard)),
        Err(_) => unreachable!(),
    }
}

// Whether a frame is served, and prepared for a message of this size and first byte.
fn is_prepared(
    receiver: &mut Receiver,
    line: &[u8],
    answer: Option<(usize, u8)>,
) -> Result<bool, OutOfMemory> {
    match parse_line(line) {
        Ok(Line::Frame { time, frame }) => {
            let (size, heard) = served(receiver, time, &frame)?;
            Ok(size == answer && answer.is_some() == matches!(heard, Heard::Message { .. }))
        }
        _ => Ok(false),
    }
}

// The line of a frame, and the size and first byte of the message prepared for it.
type Prepared = (&'static [u8], Option<(usize, u8)>);

const PREPARED: [Prepared; 6] = [
    (b"(1.000000) can0 1CC82680#140900000000E700", None),
    (b"(1.000000) can0 1CC82680#160200000000E700", None),
    (b"(2.000000) can0 1CC72680#01B4E8036400FFFF", None),
    (
        b"(3.250000) can0 1CC72680#020500FFFFFFFFFF",
        Some((9, 0xB4)),
    ),
    // The session is overdue at its offset.
    (b"(1.000000) can0 1CC82680#140900000000E700", None),
    (b"(2.250001) can0 1CC82680#160200000000E700", None),
];

fn are_prepared(alloc: Global, frames: &[Prepared]) -> Result<bool, OutOfMemory> {
    let mut receiver = Receiver::new(alloc, NODE);
    let mut same = true;
    for (line, answer) in frames {
        same = is_prepared(&mut receiver, line, *answer)? && same;
    }
    Ok(same)
}

#[test]
fn a_message_is_prepared_before_it_is_heard(rt: HostRuntime) -> Result<(), Fail> {
    let same = are_prepared(rt.alloc(), &PREPARED)?;
    assert!(rt; same);
    Ok(())
}

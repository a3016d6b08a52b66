//! Tests of calls of the ETP receiver that are refused memory: they change nothing, and may be repeated.

use super::*;

const REQUEST: &[u8] = b"(1.000000) can0 1CC82680#140900000000E700";

const CLEAR: &[u8] = b"1CC88026#150201000000E700";

const OFFSET: &[u8] = b"(1.000000) can0 1CC82680#160200000000E700";

const FIRST: &[u8] = b"(1.000000) can0 1CC72680#01B4E8036400FFFF";

const LAST: &[u8] = b"(1.000000) can0 1CC72680#020500FFFFFFFFFF";

const END: &[u8] = b"1CC88026#170900000000E700";

const BYTES: &[u8] = b"\xB4\xE8\x03\x64\x00\xFF\xFF\x05\x00";

const WHOLE: Wanted = Wanted::Message(END, BYTES);

// Whether a session of nine bytes opens, and accepts the first of two packets.
fn opens(receiver: &mut Receiver) -> Result<bool, OutOfMemory> {
    Ok(
        answers(receiver, REQUEST, Wanted::Reply(CLEAR))?
            && answers(receiver, OFFSET, Wanted::Silence)?
            && answers(receiver, FIRST, Wanted::Silence)?,
    )
}

fn opens_again(receiver: &mut Receiver) -> Result<bool, OutOfMemory> {
    match opens(receiver) {
        Ok(same) => Ok(same),
        Err(_) => opens(receiver),
    }
}

// Whether a second request opens a session, and keeps the open session if it is refused memory.
fn hears_again(receiver: &mut Receiver) -> Result<bool, OutOfMemory> {
    let opened = match opens(receiver) {
        Ok(same) => same,
        Err(_) => answers(receiver, LAST, WHOLE)? && opens(receiver)?,
    };
    Ok(opened && answers(receiver, LAST, WHOLE)?)
}

// Whether a prepared request is not refused memory, and a refused preparation keeps the open session.
fn prepares_again(receiver: &mut Receiver) -> Result<bool, OutOfMemory> {
    let Ok(Line::Frame { time, frame }) = parse_line(REQUEST) else {
        return Ok(false);
    };
    let stayed = match receiver.prepare(time, &frame) {
        Ok(_) => true,
        Err(_) => {
            let stayed = answers(receiver, LAST, WHOLE)?;
            receiver.prepare(time, &frame)?;
            stayed
        }
    };
    let opened = opens(receiver).unwrap_or(false);
    Ok(stayed && opened && answers(receiver, LAST, WHOLE)?)
}

#[test]
fn want_of_memory(rt: HostRuntime) -> Result<(), Fail> {
    let mut receiver = Receiver::new(rt.alloc(), NODE);
    let heard = opens_again(&mut receiver)? && hears_again(&mut receiver)?;
    let prepared = opens_again(&mut receiver)? && prepares_again(&mut receiver)?;
    assert!(rt; heard && prepared);
    Ok(())
}

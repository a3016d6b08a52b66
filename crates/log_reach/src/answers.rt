//! What the terminal has answered a working set (docs/PROFILE.md, "Commands: all rows").

use vt_can::Frame;
use vt_can::assigned::{END_OF_POOL, VT_TO_ECU};
use vt_commands::{CommandRow, Raises};
use vt_frames_text::error_of;
use vt_objects::{Event, ObjectId, Raised};

/// The answer of a terminal to a message of a working set.
#[derive(Clone, Copy)]
pub(crate) enum Answer {
    /// The pool is accepted.
    Pool,
    /// The command is done.
    Done(Effect),
    /// The command is refused.
    Refused,
}

/// What a command that is done raises.
#[derive(Clone, Copy)]
pub(crate) enum Effect {
    /// No event.
    Quiet,
    /// One event.
    Event(Raised),
    /// The events of a change to this active mask.
    ActiveMask(ObjectId),
}

impl Answer {
    /// The address of a working set and the answer to it in a frame of a terminal. `None` in any other frame.
    pub(crate) fn in_frame(frame: &Frame) -> Option<(u8, Answer)> {
        if frame.id.pgn() != VT_TO_ECU {
            return None;
        }
        let address = frame.id.destination()?;
        let bytes = frame.bytes.as_slice();
        let bytes = <[u8; 8]>::try_from(bytes).ok()?;
        let [function, ..] = bytes;
        let answer = match (function, error_of(&bytes)?) {
            (END_OF_POOL, 0) => Answer::Pool,
            (END_OF_POOL, _) => return None,
            (_, 0) => Answer::Done(effect_of(&bytes)),
            (_, _) => Answer::Refused,
        };
        Some((address, answer))
    }
}

/// The effect of a command that is done, by its reply.
fn effect_of(reply: &[u8; 8]) -> Effect {
    let Some((row, id)) = row_and_object(reply) else {
        return Effect::Quiet;
    };
    match row.raises {
        Raises::Nothing => Effect::Quiet,
        Raises::One(event) => on(id, event),
        Raises::ByState(off, on_event) => by_state(id, reply[3], off, on_event),
        Raises::ActiveMask => Effect::ActiveMask(id),
    }
}

/// The row of a command and the object that its reply names, or `None` if it names none.
fn row_and_object(reply: &[u8]) -> Option<(CommandRow, ObjectId)> {
    let row = CommandRow::of(*reply.first()?)?;
    let [low, high, ..] = reply.get(row.object_at?..)? else {
        return None;
    };
    Some((row, ObjectId::from_raw(u16::from_le_bytes([*low, *high]))))
}

/// An event of an object.
fn on(id: ObjectId, event: Event) -> Effect {
    Effect::Event(Raised { id, event })
}

/// The event of a state, which is 0 or 1.
fn by_state(id: ObjectId, state: u8, off: Event, on_event: Event) -> Effect {
    match state {
        0 => on(id, off),
        1 => on(id, on_event),
        _ => Effect::Quiet,
    }
}

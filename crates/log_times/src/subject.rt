//! What a request asks of a terminal, and what an answer is about.

use crate::message::Message;
use byteorder::{ByteOrder, LittleEndian};
use vt_can::assigned::{GLOBAL_ADDRESS, TRANSFER};
use vt_commands::{Command, CommandRow};
use vt_frames_text::MAINTENANCE;

/// What a request asks of a terminal, and what an answer is about.
#[derive(Clone, Copy, PartialEq, Eq, PartialOrd, Ord)]
pub(crate) struct Subject {
    /// The address of the implement.
    implement: u8,
    /// The address of the terminal.
    terminal: u8,
    /// The function.
    pub(crate) function: u8,
    /// The object that the answer names. `None` if it names no object.
    object: Option<u16>,
}

/// What a message to a terminal asks. `None` for a message that is no request: one to all, an answer to a terminal (functions 00 to 10),
/// a piece of a pool, and maintenance.
pub(crate) fn asked_by(message: Message<'_>) -> Option<Subject> {
    let is_request = message.destination != GLOBAL_ADDRESS
        && message.function > TRANSFER
        && message.function != MAINTENANCE;
    is_request.then_some(Subject {
        implement: message.source,
        terminal: message.destination,
        function: message.function,
        object: object_in_answer(message.bytes),
    })
}

/// What a message of a terminal is about.
pub(crate) fn answered_by(message: Message<'_>) -> Subject {
    Subject {
        implement: message.destination,
        terminal: message.source,
        function: message.function,
        object: object_named(message.function, message.bytes),
    }
}

/// The object that the answer to a request has to name.
fn object_in_answer(request: &[u8]) -> Option<u16> {
    let command = Command::read(request)?;
    let object = if let Command::ChangeActiveMask { mask, .. } = command {
        mask
    } else {
        command.object()?
    };
    Some(object.raw())
}

/// The object that an answer with a function names.
fn object_named(function: u8, answer: &[u8]) -> Option<u16> {
    let place = CommandRow::of(function)?.object_at?;
    let id = answer.get(place..)?.get(..2)?;
    Some(LittleEndian::read_u16(id))
}

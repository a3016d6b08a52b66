//! The messages at the lines of a log, and the objects that they name.

use vt_can::Frame;
use vt_can::assigned::{ECU_TO_VT, GLOBAL_ADDRESS, VT_TO_ECU};
use vt_commands::function::{BUTTON_ACTIVATION, NUMERIC_VALUE, SOFT_KEY_ACTIVATION, STRING_VALUE};
use vt_commands::{Command, CommandRow, Target, targets};
use vt_frames_text::SELECT_INPUT;
use vt_objects::ObjectId;

/// A message at a line of a log, in a frame or in packets.
#[derive(Clone, Copy)]
pub(crate) struct LineMessage<'a> {
    /// The parameter group.
    pub(crate) group: u32,
    /// The address that sends it.
    pub(crate) source: u8,
    /// The address to which it goes, 255 for all.
    pub(crate) destination: u8,
    /// Its bytes.
    pub(crate) bytes: &'a [u8],
}

impl<'a> LineMessage<'a> {
    /// The message of a frame.
    pub(crate) fn of_frame(frame: &'a Frame) -> LineMessage<'a> {
        LineMessage {
            group: frame.id.pgn(),
            source: frame.id.source(),
            destination: frame.id.destination().unwrap_or(GLOBAL_ADDRESS),
            bytes: frame.bytes.as_slice(),
        }
    }

    /// The function of a message between an implement and a terminal, which is its first byte.
    pub(crate) fn function(&self) -> Option<u8> {
        match self.group {
            ECU_TO_VT | VT_TO_ECU => self.bytes.first().copied(),
            _ => None,
        }
    }

    /// The objects that the message names, two at most: those of a command, the one of its reply, and the one on which the operator has
    /// acted.
    pub(crate) fn objects(&self) -> (Option<ObjectId>, Option<ObjectId>) {
        match self.group {
            ECU_TO_VT => objects_of_command(self.bytes),
            VT_TO_ECU => (object_of_reply(self.bytes), None),
            _ => (None, None),
        }
    }
}

/// The objects that a command names, two at most.
fn objects_of_command(bytes: &[u8]) -> (Option<ObjectId>, Option<ObjectId>) {
    let Some(command) = Command::read(bytes) else {
        return (None, None);
    };
    let (first, second) = targets(&command, None);
    (id_of(first), id_of(second))
}

/// The ID of a target.
fn id_of(target: Option<Target>) -> Option<ObjectId> {
    Some(target?.id)
}

/// The object that a message of a terminal names: the one of a reply, or the one on which the operator has acted.
fn object_of_reply(bytes: &[u8]) -> Option<ObjectId> {
    let function = *bytes.first()?;
    let place = match CommandRow::of(function) {
        Some(row) => row.object_at?,
        None => match function {
            SOFT_KEY_ACTIVATION | BUTTON_ACTIVATION => 2,
            SELECT_INPUT | NUMERIC_VALUE | STRING_VALUE => 1,
            _ => return None,
        },
    };
    let low = *bytes.get(place)?;
    let high = *bytes.get(place.checked_add(1)?)?;
    Some(ObjectId::from_raw(u16::from_le_bytes([low, high])))
}

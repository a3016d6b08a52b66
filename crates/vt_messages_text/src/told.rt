//! What terminals report unasked, in words: the operator's actions and the status.

use crate::objects::{Objects, id_of};
use byteorder::{ByteOrder, LittleEndian};
use std::fmt;
use vt_can::assigned::{NULL_ADDRESS, VT_STATUS};
use vt_commands::function::{BUTTON_ACTIVATION, NUMERIC_VALUE, SOFT_KEY_ACTIVATION, STRING_VALUE};
use vt_frames_text::{PlainMessage, QuotedText, SELECT_INPUT};
use vt_objects::ObjectId;
use vt_server::Terminal;

/// A message of a terminal that is no reply to a command.
#[derive(Clone, Copy, Drop)]
pub(crate) struct ToldSentence<'a> {
    pub(crate) bytes: &'a [u8],
    /// The objects of the set that the message goes to.
    pub(crate) objects: Objects<'a>,
    /// The terminal, which has the working sets that a status names.
    pub(crate) terminal: &'a Terminal,
}

impl fmt::Display for ToldSentence<'_> {
    fn fmt<W: fmt::Write>(&self, f: &mut fmt::Formatter<W>) -> fmt::Result {
        let objects = self.objects;
        match self.bytes {
            [SOFT_KEY_ACTIVATION, state, low, high, m0, m1, code, ..] => {
                f.write_str("Soft Key Activation: ")?;
                write_key(
                    f,
                    objects,
                    *state,
                    id_of(*low, *high),
                    id_of(*m0, *m1),
                    *code,
                )
            }
            [BUTTON_ACTIVATION, state, low, high, m0, m1, code, ..] => {
                f.write_str("Button Activation: ")?;
                write_key(
                    f,
                    objects,
                    *state,
                    id_of(*low, *high),
                    id_of(*m0, *m1),
                    *code,
                )
            }
            [SELECT_INPUT, low, high, state, ..] => {
                let input = objects.object(id_of(*low, *high));
                write!(f, "Select Input Object: {input}, ")?;
                match state {
                    0 => f.write_str("left"),
                    1 => f.write_str("selected"),
                    _ => write!(f, "state {state}"),
                }
            }
            [NUMERIC_VALUE, low, high, _, value @ ..] if value.len() >= 4 => {
                let input = objects.object(id_of(*low, *high));
                let value = LittleEndian::read_u32(value);
                write!(f, "Numeric Value: {input}, value {value}")
            }
            [STRING_VALUE, low, high, length, text @ ..] => {
                let input = objects.object(id_of(*low, *high));
                let text = text.get(..usize::from(*length)).unwrap_or(text);
                write!(
                    f,
                    "String Value: {input}, length {length}, {}",
                    QuotedText(text)
                )
            }
            [VT_STATUS, address, m0, m1, k0, k1, ..] => {
                self.write_status(f, *address, id_of(*m0, *m1), id_of(*k0, *k1))
            }
            bytes => write!(f, "{}", PlainMessage(bytes)),
        }
    }
}

impl ToldSentence<'_> {
    /// Writes a status: the address of the working set that is shown, its active mask and its soft key mask.
    fn write_status<W: fmt::Write>(
        &self,
        f: &mut fmt::Formatter<W>,
        address: u8,
        mask: ObjectId,
        keys: ObjectId,
    ) -> fmt::Result {
        if address == NULL_ADDRESS {
            return f.write_str("VT Status: no working set");
        }
        let objects = Objects {
            pool: self.terminal.set(address),
            names: self.objects.names,
        };
        let mask = objects.object_or(mask, "no mask");
        let keys = objects.object_or(keys, "no soft keys");
        write!(f, "VT Status: working set {address:02X}, {mask}, {keys}")
    }
}

/// Writes a key or a button, what became of it, the mask that it is on, and its key code.
fn write_key<W: fmt::Write>(
    f: &mut fmt::Formatter<W>,
    objects: Objects<'_>,
    state: u8,
    key: ObjectId,
    mask: ObjectId,
    code: u8,
) -> fmt::Result {
    write!(f, "{}, {}", objects.object(key), KeyState(state))?;
    write!(f, ", on {}, key code {code}", objects.object(mask))
}

/// What became of a key or a button: the code in the second byte of its message.
#[derive(Clone, Copy, Drop)]
struct KeyState(u8);

impl fmt::Display for KeyState {
    fn fmt<W: fmt::Write>(&self, f: &mut fmt::Formatter<W>) -> fmt::Result {
        match self.0 {
            0 => f.write_str("released"),
            1 => f.write_str("pressed"),
            2 => f.write_str("held"),
            state => write!(f, "code {state}"),
        }
    }
}

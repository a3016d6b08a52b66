//! The operator's actions that messages of a terminal report.

use byteorder::{ByteOrder, LittleEndian};
use std::alloc::Global;
use std::io::{self, Write};
use vt_can::Action;
use vt_cli::JsonLine;
use vt_commands::function::{BUTTON_ACTIVATION, NUMERIC_VALUE, SOFT_KEY_ACTIVATION, STRING_VALUE};
use vt_frames_text::SELECT_INPUT;

/// The state of a key or a button that was released.
const RELEASED: u8 = 0;

/// The state of a key or a button that was pressed.
const PRESSED: u8 = 1;

/// The action that a message of a terminal reports. `None` if it reports none, or one that no operator line can say: a text with a
/// newline, or the object 65535.
pub(crate) fn action_in(message: &[u8]) -> Option<Action<'_>> {
    match message {
        [
            SOFT_KEY_ACTIVATION | BUTTON_ACTIVATION,
            state,
            low,
            high,
            _,
            _,
            _,
            _,
        ] => { key_action(*state, id(*low, *high)?) }
        [SELECT_INPUT, low, high, 1, ..] => Some(Action::Select(id(*low, *high)?)),
        [NUMERIC_VALUE, low, high, _, value @ ..] if value.len() == 4 => {
            Some(Action::Number(id(*low, *high)?, LittleEndian::read_u32(value)))
        }
        [STRING_VALUE, low, high, length, text @ ..] => {
            let text = text.get(..usize::from(*length))?;
            let is_line = !text.contains(&b'\n');
            is_line.then_some(Action::Text(id(*low, *high)?, text))
        }
        _ => None,
    }
}

/// The action of a key or a button.
fn key_action<'a>(state: u8, id: u16) -> Option<Action<'a>> {
    match state {
        PRESSED => Some(Action::Press(id)),
        RELEASED => Some(Action::Release(id)),
        _ => None,
    }
}

/// The ID of an object, which is not NULL.
fn id(low: u8, high: u8) -> Option<u16> {
    let id = u16::from_le_bytes([low, high]);
    (id != u16::MAX).then_some(id)
}

/// Writes the line of an action.
pub(crate) fn put_action<W: Write>(action: Action<'_>, out: &mut W) -> io::Result<()> {
    match action {
        Action::Press(id) => writeln!(out, "! press {id}"),
        Action::Release(id) => writeln!(out, "! release {id}"),
        Action::Select(id) => writeln!(out, "! select {id}"),
        Action::Number(id, number) => writeln!(out, "! number {id} {number}"),
        Action::Text(id, text) => {
            write!(out, "! text {id} ")?;
            out.write_all(text)?;
            // A line loses one carriage return at its end.
            if text.ends_with(b"\r") {
                out.write_all(b"\r")?;
            }
            out.write_all(b"\n")
        }
        Action::Set(address) => writeln!(out, "! set {address:02X}"),
    }
}

/// Writes an action as a line of JSON, with the line of the log at which its message begins, and the latest time up to the message in
/// microseconds.
pub(crate) fn put_fields<W: Write>(
    alloc: Global,
    number: u64,
    time: u64,
    action: Action<'_>,
    out: &mut W,
) -> io::Result<()> {
    let (name, object) = match action {
        Action::Press(id) => ("press", Some(id)),
        Action::Release(id) => ("release", Some(id)),
        Action::Select(id) => ("select", Some(id)),
        Action::Number(id, _) => ("number", Some(id)),
        Action::Text(id, _) => ("text", Some(id)),
        Action::Set(_) => ("set", None),
    };
    let mut line = JsonLine::new(alloc);
    line.put_text("action", name)?;
    line.put_text("kind", "action")?;
    line.put_number("line", number)?;
    line.put_number_if("object", object.map(u64::from))?;
    line.put_number("time", time)?;
    match action {
        Action::Number(_, number) => line.put_number("value", u64::from(number))?,
        Action::Text(_, text) => line.put_bytes_if("value", Some(text))?,
        Action::Set(address) => line.put_address("value", address)?,
        Action::Press(_) | Action::Release(_) | Action::Select(_) => {
            line.put_text_if("value", None::<&str>)?;
        }
    }
    line.write(out)
}

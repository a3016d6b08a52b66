//! The replies of terminals in words.

use crate::error_bits::OutcomeWords;
use crate::objects::{Objects, id_of};
use crate::told::ToldSentence;
use std::fmt;
use vt_can::assigned::{END_OF_POOL, GET_FONTS, GET_HARDWARE, GET_MEMORY, GET_SOFT_KEYS};
use vt_frames_text::{
    Count, DELETE_VERSION, GET_VERSIONS_RESPONSE, HexByte, LOAD_VERSION, PlainMessage, QuotedText,
    STORE_VERSION, error_of, function_name,
};
use vt_objects::ObjectId;
use vt_server::Terminal;

/// A message of a terminal to an implement, or to all.
#[derive(Clone, Copy, Drop)]
pub(crate) struct ReplySentence<'a> {
    pub(crate) bytes: &'a [u8],
    /// The objects of the set that the message goes to.
    pub(crate) objects: Objects<'a>,
    /// The terminal, which has the working sets that a status names.
    pub(crate) terminal: &'a Terminal,
}

impl fmt::Display for ReplySentence<'_> {
    fn fmt<W: fmt::Write>(&self, f: &mut fmt::Formatter<W>) -> fmt::Result {
        match self.bytes {
            [END_OF_POOL, error, p0, p1, o0, o1, code, ..] => {
                let parent = id_of(*p0, *p1);
                self.write_end_of_pool(f, *error, parent, id_of(*o0, *o1), *code)
            }
            [GET_MEMORY, version, status, ..] => write_memory(f, *version, *status),
            [
                GET_SOFT_KEYS,
                _,
                _,
                _,
                width,
                height,
                virtual_keys,
                keys,
                ..
            ] => write!(
                f,
                "Get Number of Soft Keys: {width}x{height} pixels, {virtual_keys} virtual, {keys} physical"
            ),
            [GET_FONTS, _, _, _, _, small, large, styles, ..] => write!(
                f,
                "Get Text Font Data: fonts {small:02X} {large:02X} {styles:02X}"
            ),
            [GET_HARDWARE, boot, graphic, hardware, x0, x1, y0, y1, ..] => {
                let width = u16::from_le_bytes([*x0, *x1]);
                let height = u16::from_le_bytes([*y0, *y1]);
                write!(
                    f,
                    "Get Hardware: boot time {boot}, graphic type {graphic}, hardware {hardware:02X}, {width}x{height} pixels"
                )
            }
            _ => self.write_rest(f),
        }
    }
}

impl ReplySentence<'_> {
    /// Writes a reply about stored pools, the outcome of a command, or what the terminal reports unasked.
    fn write_rest<W: fmt::Write>(&self, f: &mut fmt::Formatter<W>) -> fmt::Result {
        let Some(function) = self.bytes.first().copied() else {
            return write!(f, "{}", PlainMessage(self.bytes));
        };
        match (function, self.bytes.get(STORED_ERROR)) {
            (GET_VERSIONS_RESPONSE, _) => write_versions(f, self.bytes),
            (STORE_VERSION | LOAD_VERSION | DELETE_VERSION, Some(error)) => {
                write_stored(f, function, *error)
            }
            _ => self.write_outcome(f, function),
        }
    }

    /// Writes the outcome of a command, or what the terminal reports unasked.
    fn write_outcome<W: fmt::Write>(&self, f: &mut fmt::Formatter<W>, function: u8) -> fmt::Result {
        let ReplySentence {
            bytes,
            objects,
            terminal,
        } = *self;
        match error_of(bytes) {
            Some(error) => {
                let name = function_name(function).unwrap_or("command");
                write!(f, "{name}: {}", OutcomeWords { function, error })
            }
            None => write!(
                f,
                "{}",
                ToldSentence {
                    bytes,
                    objects,
                    terminal
                }
            ),
        }
    }

    /// Writes the reply to End of Object Pool.
    fn write_end_of_pool<W: fmt::Write>(
        &self,
        f: &mut fmt::Formatter<W>,
        error: u8,
        parent: ObjectId,
        object: ObjectId,
        code: u8,
    ) -> fmt::Result {
        if error == 0 {
            return f.write_str("End of Object Pool: accepted");
        }
        f.write_str("End of Object Pool: refused: ")?;
        if !object.is_null() {
            write!(f, "{}, ", self.objects.object(object))?;
        }
        if !parent.is_null() {
            write!(f, "named by {}, ", self.objects.object(parent))?;
        }
        write!(f, "code {code:02X}")?;
        match code_meaning(code) {
            Some(meaning) => write!(f, " ({meaning})"),
            None => Ok(()),
        }
    }
}

/// The meaning of a code for which a pool is refused, or `None` if it is none of docs/PROFILE.md, "End of Object Pool".
fn code_meaning(code: u8) -> Option<&'static str> {
    match code {
        1 => Some("an object type that the terminal does not have"),
        2 => Some("an object is missing"),
        4 => Some("any other error"),
        _ => None,
    }
}

/// The index of the error byte in a reply about a stored pool.
const STORED_ERROR: usize = 5;

/// The bytes of a label.
const LABEL: usize = 7;

/// Writes the labels of the pools that a terminal has stored.
fn write_versions<W: fmt::Write>(f: &mut fmt::Formatter<W>, bytes: &[u8]) -> fmt::Result {
    let count = bytes.get(1).copied().unwrap_or(0);
    let labels = bytes.get(2..).unwrap_or(&[]);
    write!(
        f,
        "Get Versions Response: {}",
        Count(u64::from(count), "version")
    )?;
    for label in labels.chunks_exact(LABEL).take(usize::from(count)) {
        write!(f, " {}", QuotedText(label))?;
    }
    if labels.len() / LABEL < usize::from(count) {
        f.write_str(", cut short")?;
    }
    Ok(())
}

/// Writes the reply to a request about a stored pool.
fn write_stored<W: fmt::Write>(f: &mut fmt::Formatter<W>, function: u8, error: u8) -> fmt::Result {
    let name = function_name(function).unwrap_or("stored version");
    match error {
        0 => write!(f, "{name}: done"),
        error => write!(f, "{name}: refused, error {}", HexByte(error)),
    }
}

/// Writes the reply to Get Memory.
fn write_memory<W: fmt::Write>(f: &mut fmt::Formatter<W>, version: u8, status: u8) -> fmt::Result {
    let status = match status {
        0 => "enough memory",
        1 => "not enough memory",
        _ => "an unknown status",
    };
    write!(f, "Get Memory: version {version}, {status}")
}

//! The messages of implements in words.

use crate::commands::command::CommandSentence;
use crate::objects::Objects;
use byteorder::{ByteOrder, LittleEndian};
use std::fmt;
use vt_can::assigned::{END_OF_POOL, GET_FONTS, GET_HARDWARE, GET_MEMORY, GET_SOFT_KEYS, TRANSFER};
use vt_commands::function::SOFT_KEY_ACTIVATION;
use vt_commands::{Command, CommandRow};
use vt_frames_text::{
    Count, DELETE_VERSION, GET_VERSIONS, HexBytes, LOAD_VERSION, MAINTENANCE, PlainMessage,
    QuotedText, STORE_VERSION,
};

/// The last function with which a terminal reports unasked what was done; the first is that of a soft key (ISO 11783-6). An implement
/// answers such a message with its bytes.
const LAST_ACTIVATION: u8 = 0x0A;

/// A message of an implement to a terminal.
#[derive(Clone, Copy, Drop)]
pub(crate) struct RequestSentence<'a> {
    pub(crate) bytes: &'a [u8],
    pub(crate) objects: Objects<'a>,
}

impl fmt::Display for RequestSentence<'_> {
    fn fmt<W: fmt::Write>(&self, f: &mut fmt::Formatter<W>) -> fmt::Result {
        if let Some(command) = Command::read(self.bytes) {
            let command = &command;
            let objects = self.objects;
            return write!(f, "{}", CommandSentence { command, objects });
        }
        match self.bytes {
            [TRANSFER, pool @ ..] => {
                let length = pool.len() as u64;
                write!(f, "Object Pool Transfer: {}", Count(length, "byte"))
            }
            [END_OF_POOL, ..] => f.write_str("End of Object Pool"),
            [MAINTENANCE, ..] => f.write_str("Working Set Maintenance"),
            [GET_MEMORY, _, memory @ ..] if memory.len() >= 4 => {
                let size = u64::from(LittleEndian::read_u32(memory));
                write!(f, "Get Memory: {}", Count(size, "byte"))
            }
            [GET_SOFT_KEYS, ..] => f.write_str("Get Number of Soft Keys"),
            [GET_FONTS, ..] => f.write_str("Get Text Font Data"),
            [GET_HARDWARE, ..] => f.write_str("Get Hardware"),
            _ => self.write_rest(f),
        }
    }
}

impl RequestSentence<'_> {
    /// Writes a message about stored pools, an answer to the operator's message, or one for which there are no other words.
    fn write_rest<W: fmt::Write>(&self, f: &mut fmt::Formatter<W>) -> fmt::Result {
        match self.bytes {
            [GET_VERSIONS, ..] => f.write_str("Get Versions"),
            [STORE_VERSION, label @ ..] => write!(f, "Store Version: {}", QuotedText(label)),
            [LOAD_VERSION, label @ ..] => write!(f, "Load Version: {}", QuotedText(label)),
            [DELETE_VERSION, label @ ..] => write!(f, "Delete Version: {}", QuotedText(label)),
            [SOFT_KEY_ACTIVATION..=LAST_ACTIVATION, ..] => {
                write!(f, "answer to {}", PlainMessage(self.bytes))
            }
            bytes => self.write_unread(f, bytes),
        }
    }

    /// Writes a command that is cut short, or a message for which there are no other words.
    fn write_unread<W: fmt::Write>(&self, f: &mut fmt::Formatter<W>, bytes: &[u8]) -> fmt::Result {
        let function = bytes.first().copied();
        match function.and_then(CommandRow::of) {
            Some(row) => write!(f, "{}, cut short: {}", row.name, HexBytes(bytes)),
            None => write!(f, "{}", PlainMessage(bytes)),
        }
    }
}

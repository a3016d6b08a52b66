//! The first line of a traced line: what the log itself says.

ghost use Rattle.std.specs.Prelude.{OnOk};
ghost use Rattle.log_trace.specs.Lines.{Gains};
ghost use Rattle.log_trace.specs.Traces.{IsHead};

use crate::lines::put_line;
use check_text::Names;
use log_listen::SentMessage;
use std::alloc::AllocError;
use std::fmt::{self, Write};
use vt_can::{Action, Skipped};
use vt_frames_text::QuotedText;
use vt_messages_text::{AddressedSentence, MessageSentence, Sentence};
use vt_objects::{ObjectId, push_number};

/// The microseconds of a second.
const SECOND: u64 = 1_000_000;

/// Appends the first line of a trace: the number of a line, and what it says. `words` is a buffer.
pub(crate) fn put_head<T: fmt::Display + Drop>(
    number: u64,
    head: T,
    words: &mut String,
    text: &mut Vec<u8>,
) -> Result<(), AllocError>
    ensures { OnOk result (Gains (IsHead number) text.old.items text.new.items) }
{
    words.clear();
    write!(words, "{head}").map_err(|_| AllocError)?;
    push_number(text, b"", number)?;
    put_line(b" ", words.as_bytes(), text)
}

/// A frame with its time and its addresses, such as `2.400000 80 to 26: End of Object Pool`. The packet that completes a message is
/// followed by what that message says.
#[derive(Clone, Copy, Drop)]
pub(crate) struct FrameHead<'a> {
    /// The time in microseconds.
    pub(crate) time: u64,
    pub(crate) sentence: Sentence<'a>,
    /// The message that the frame completes, if it completes one.
    pub(crate) whole: Option<&'a SentMessage>,
}

impl fmt::Display for FrameHead<'_> {
    fn fmt<W: fmt::Write>(&self, f: &mut fmt::Formatter<W>) -> fmt::Result {
        let seconds = self.time / SECOND;
        let micros = self.time % SECOND;
        let sentence = self.sentence;
        write!(f, "{seconds}.{micros:06} {}", AddressedSentence(sentence))?;
        let Some(message) = self.whole else {
            return Ok(());
        };
        let message = MessageSentence {
            group: message.pgn,
            source: message.source,
            destination: Some(message.destination),
            bytes: &message.bytes,
            terminal: sentence.terminal,
            names: sentence.names,
        };
        write!(f, ", whole message: {message}")
    }
}

/// An action of the operator, such as `operator: press 400`, with the names of objects behind their IDs.
#[derive(Clone, Copy, Drop)]
pub(crate) struct ActionHead<'a> {
    pub(crate) action: Action<'a>,
    pub(crate) names: &'a Names,
}

impl fmt::Display for ActionHead<'_> {
    fn fmt<W: fmt::Write>(&self, f: &mut fmt::Formatter<W>) -> fmt::Result {
        f.write_str("operator: ")?;
        match self.action {
            Action::Press(id) => write!(f, "press {}", self.object(id)),
            Action::Release(id) => write!(f, "release {}", self.object(id)),
            Action::Select(id) => write!(f, "select {}", self.object(id)),
            Action::Number(id, number) => write!(f, "number {} {number}", self.object(id)),
            Action::Text(id, text) => { write!(f, "text {} {}", self.object(id), QuotedText(text)) }
            Action::Set(address) => write!(f, "set {address:02X}"),
        }
    }
}

impl<'a> ActionHead<'a> {
    fn object(&self, id: u16) -> NamedId<'a> {
        NamedId {
            id,
            name: self.names.get(ObjectId::from_raw(id)),
        }
    }
}

/// An ID with the name behind it, if there is one.
#[derive(Clone, Copy, Drop)]
struct NamedId<'a> {
    id: u16,
    name: Option<&'a str>,
}

impl fmt::Display for NamedId<'_> {
    fn fmt<W: fmt::Write>(&self, f: &mut fmt::Formatter<W>) -> fmt::Result {
        let id = self.id;
        match self.name {
            Some(name) => write!(f, "{id} `{name}`"),
            None => write!(f, "{id}"),
        }
    }
}

/// The kind of a frame that is skipped.
pub(crate) fn skipped_words(skipped: Skipped) -> &'static str {
    match skipped {
        Skipped::Remote => "a remote frame",
        Skipped::Fd => "a CAN FD frame",
        Skipped::Short => "an 11-bit identifier",
        Skipped::Error => "an error frame",
    }
}

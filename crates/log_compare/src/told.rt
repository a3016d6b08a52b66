//! The lines of a comparison, for people or as JSON.

use crate::causes::Cause;
use crate::words::words_of;
use check_text::Names;
use log_answers::{Difference, Said, Topic};
use log_options::Format;
use log_traffic::Seconds;
use std::alloc::{AllocError, Global};
use std::fmt;
use std::io::{self, Write};
use vt_cli::{Cell, JsonLine};
use vt_frames_text::{Destination, HexByte, error_of, function_name};
use vt_objects::ObjectId;
use vt_server::Terminal;

/// How the lines of a comparison are written.
#[derive(Clone, Copy, Drop)]
pub(crate) struct Telling<'a> {
    pub(crate) alloc: Global,
    pub(crate) names: &'a Names,
    pub(crate) format: Format,
}

impl Telling<'_> {
    /// Writes the line of a difference, with its cause if it is known. The words name the objects that the terminal has now.
    pub(crate) fn put_difference<W: Write>(
        &self,
        difference: &Difference,
        terminal: &Terminal,
        cause: Option<Cause>,
        out: &mut W,
    ) -> io::Result<()> {
        let (ours, theirs) = sides_of(difference);
        let sides = Sides {
            ours: self.side_of(ours, terminal)?,
            theirs: self.side_of(theirs, terminal)?,
        };
        let first = first_of(difference);
        match self.format {
            Format::Text => self.put_text(first, &sides, cause, out),
            Format::Json => self.put_fields(difference, &sides, cause, out),
        }
    }

    /// Writes a difference as a line for people.
    fn put_text<W: Write>(
        &self,
        first: &Said,
        sides: &Sides<'_>,
        cause: Option<Cause>,
        out: &mut W,
    ) -> io::Result<()> {
        let line = first.line;
        let time = Seconds(first.time);
        let topic = TopicText {
            topic: first.topic,
            names: self.names,
        };
        let ours = Message {
            side: sides.ours.as_ref(),
            cause,
        };
        let theirs = Message {
            side: sides.theirs.as_ref(),
            cause: None,
        };
        write!(
            out,
            "line {line}: {time} {topic}: ours {ours}, recorded {theirs}"
        )?;
        match (&sides.ours, &sides.theirs) {
            (Some(_), Some(theirs)) => writeln!(out, " at line {}", theirs.said.line),
            _ => writeln!(out),
        }
    }

    /// Writes a difference as an object of JSON.
    fn put_fields<W: Write>(
        &self,
        difference: &Difference,
        sides: &Sides<'_>,
        cause: Option<Cause>,
        out: &mut W,
    ) -> io::Result<()> {
        let Said { time, topic, .. } = *first_of(difference);
        let ours = sides.ours.as_ref();
        let theirs = sides.theirs.as_ref();
        let mut line = JsonLine::new(self.alloc);
        line.put_all(&[
            ("destination", Cell::Hex(topic.destination)),
            ("error", error_cell(ours)),
            ("function", Cell::Hex(topic.function)),
            ("kind", Cell::Text(kind_of(difference))),
            ("line", Cell::number_if(ours.map(|side| side.said.line))),
            ("name", Cell::text_if(function_name(topic.function))),
            ("object", Cell::number_if(topic.object.map(u64::from))),
            ("ours_words", Cell::text_if(ours.and_then(Side::words))),
            ("recorded_error", error_cell(theirs)),
            (
                "recorded_line",
                Cell::number_if(theirs.map(|side| side.said.line)),
            ),
            (
                "recorded_words",
                Cell::text_if(theirs.and_then(Side::words)),
            ),
            ("time", Cell::Number(time)),
        ])?;
        line.put_text_if("ours", ours.map(Side::bytes))?;
        line.put_text_if("recorded", theirs.map(Side::bytes))?;
        line.put_text_if("why", cause)?;
        line.write(out)
    }

    /// A side of a difference with its words, if it has a message.
    fn side_of<'b>(
        &self,
        said: Option<&'b Said>,
        terminal: &Terminal,
    ) -> Result<Option<Side<'b>>, AllocError> {
        let Some(said) = said else {
            return Ok(None);
        };
        let words = words_of(self.alloc, said, terminal, self.names)?;
        Ok(Some(Side { said, words }))
    }
}

/// The error byte of a side of a difference, if it has a message with one.
fn error_cell<'a>(side: Option<&Side<'a>>) -> Cell<'a> {
    match side.and_then(Side::error) {
        Some(HexByte(error)) => Cell::Hex(error),
        None => Cell::Null,
    }
}

/// The message whose line a difference has: the question, or the answer if there is none.
pub(crate) fn first_of(difference: &Difference) -> &Said {
    match difference {
        Difference::Differ { ours, .. } => ours,
        Difference::OursAlone(said) | Difference::TheirsAlone(said) => said,
    }
}

/// The message of this terminal in a difference, and that of the recorded one.
fn sides_of(difference: &Difference) -> (Option<&Said>, Option<&Said>) {
    match difference {
        Difference::Differ { ours, theirs } => (Some(ours), Some(theirs)),
        Difference::OursAlone(ours) => (Some(ours), None),
        Difference::TheirsAlone(theirs) => (None, Some(theirs)),
    }
}

/// The kind of a difference in a line of JSON.
fn kind_of(difference: &Difference) -> &'static str {
    match difference {
        Difference::Differ { .. } => "differ",
        Difference::OursAlone(_) => "ours alone",
        Difference::TheirsAlone(_) => "theirs alone",
    }
}

/// The messages of a difference.
#[derive(Drop)]
struct Sides<'a> {
    ours: Option<Side<'a>>,
    theirs: Option<Side<'a>>,
}

/// A message of a difference.
#[derive(Drop)]
struct Side<'a> {
    said: &'a Said,
    /// What it says, if there are words for it.
    words: Option<String>,
}

impl<'a> Side<'a> {
    /// The bytes of the message in hex.
    fn bytes(&self) -> HexText<'a> {
        HexText { said: self.said }
    }

    /// The error byte of the message, if it has one.
    fn error(&self) -> Option<HexByte> {
        error_of(self.said.bytes.as_slice()).map(HexByte)
    }

    /// The words of the message.
    fn words(&self) -> Option<&str> {
        match &self.words {
            Some(words) => Some(words.as_str()),
            None => None,
        }
    }
}

/// A topic in words: the destination, the function, and the object with its name.
#[derive(Clone, Copy, Drop)]
struct TopicText<'a> {
    topic: Topic,
    names: &'a Names,
}

impl fmt::Display for TopicText<'_> {
    fn fmt<W: fmt::Write>(&self, f: &mut fmt::Formatter<W>) -> fmt::Result {
        let Topic {
            destination,
            function,
            object,
        } = self.topic;
        write!(f, "to {}: ", Destination(Some(destination)))?;
        match function_name(function) {
            Some(name) => write!(f, "{name}")?,
            None => write!(f, "function {function:02X}")?,
        }
        let Some(id) = object else {
            return Ok(());
        };
        write!(f, " {id}")?;
        match self.names.get(ObjectId::from_raw(id)) {
            Some(name) => write!(f, " `{name}`"),
            None => Ok(()),
        }
    }
}

/// A message in hex with its error byte, or `none`, and behind it in brackets what it says and why it differs.
#[derive(Clone, Copy, Drop)]
struct Message<'a> {
    side: Option<&'a Side<'a>>,
    cause: Option<Cause>,
}

impl fmt::Display for Message<'_> {
    fn fmt<W: fmt::Write>(&self, f: &mut fmt::Formatter<W>) -> fmt::Result {
        match self.side {
            None => f.write_str("none")?,
            Some(side) => write!(f, "{}", side.bytes())?,
        }
        if let Some(error) = self.side.and_then(Side::error) {
            write!(f, " error {error}")?;
        }
        match (self.side.and_then(Side::words), self.cause) {
            (None, None) => Ok(()),
            (Some(words), None) => write!(f, " ({words})"),
            (None, Some(cause)) => write!(f, " ({cause})"),
            (Some(words), Some(cause)) => write!(f, " ({words}; {cause})"),
        }
    }
}

/// The bytes of a message in hex.
#[derive(Clone, Copy, Drop)]
struct HexText<'a> {
    said: &'a Said,
}

impl fmt::Display for HexText<'_> {
    fn fmt<W: fmt::Write>(&self, f: &mut fmt::Formatter<W>) -> fmt::Result {
        for byte in self.said.bytes.iter() {
            write!(f, "{byte:02X}")?;
        }
        Ok(())
    }
}

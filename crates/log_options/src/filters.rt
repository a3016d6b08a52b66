//! Filters: which lines of a log are printed, and which differences of a comparison are reported.

use crate::places::{LineRange, is_number};
use check_text::Names;
use hex::FromHex;
use std::fmt;
use vt_can::assigned::GLOBAL_ADDRESS;
use vt_objects::ObjectId;

/// An object in the value of an option.
#[derive(Clone, Copy, PartialEq, Eq)]
pub enum ObjectWord<'a> {
    /// The object with this ID.
    Id(u16),
    /// The objects with this name.
    Name(&'a str),
}

impl<'a> ObjectWord<'a> {
    /// The object that a text gives: a decimal ID, or otherwise a name. `None` for no text, and for a number that is no ID.
    pub(crate) fn read(text: &'a str) -> Option<ObjectWord<'a>> {
        if text.is_empty() {
            return None;
        }
        if !is_number(text) {
            return Some(ObjectWord::Name(text));
        }
        let id = text.parse::<u16>().ok()?;
        if ObjectId::from_raw(id).is_null() {
            return None;
        }
        Some(ObjectWord::Id(id))
    }

    /// Whether an object is the one that is given.
    pub fn is(self, id: ObjectId, names: &Names) -> bool {
        match self {
            ObjectWord::Id(given) => id.raw() == given,
            ObjectWord::Name(given) => names.get(id).is_some_and(|name| name == given),
        }
    }

    /// The name that is given, if no object has it.
    pub fn unknown_name(self, names: &Names) -> Option<UnknownName<'a>> {
        let ObjectWord::Name(name) = self else {
            return None;
        };
        let is_there = (0..u16::MAX).any(|id| self.is(ObjectId::from_raw(id), names));
        if is_there {
            None
        } else {
            Some(UnknownName(name))
        }
    }
}

/// A name that no object has, which its `Display` says.
#[derive(Clone, Copy, PartialEq, Eq)]
pub struct UnknownName<'a>(pub &'a str);

impl fmt::Display for UnknownName<'_> {
    fn fmt<W: fmt::Write>(&self, f: &mut fmt::Formatter<W>) -> fmt::Result {
        let name = self.0;
        write!(
            f,
            "no object has the name {name}; expected an ID, or a name that a file of --names gives"
        )
    }
}

/// A part of what a message of a terminal is about, in the value of an option.
#[derive(Clone, Copy, PartialEq, Eq)]
pub enum TopicPart<'a> {
    /// The function, the first byte.
    Function(u8),
    /// The object.
    Object(ObjectWord<'a>),
    /// The address to which the message goes, 255 for all.
    Destination(u8),
}

impl<'a> TopicPart<'a> {
    /// The part that a text gives: `03`, `object=1000`, `object=NAME`, `to=80` or `to=all`. `None` for any other text.
    pub(crate) fn read(text: &'a str) -> Option<TopicPart<'a>> {
        match text.split_once('=') {
            None => Some(TopicPart::Function(byte_in(text)?)),
            Some(("object", object)) => Some(TopicPart::Object(ObjectWord::read(object)?)),
            Some(("to", "all")) => Some(TopicPart::Destination(GLOBAL_ADDRESS)),
            Some(("to", address)) => Some(TopicPart::Destination(byte_in(address)?)),
            Some(_) => None,
        }
    }
}

/// Which differences of a comparison are reported.
#[derive(Drop)]
pub struct TopicFilter<'a> {
    /// The lines.
    pub range: LineRange,
    /// A difference fits one of these parts, if there are some.
    pub only: Vec<TopicPart<'a>>,
    /// A difference fits none of these parts.
    pub ignored: Vec<TopicPart<'a>>,
}

/// Which lines of a log are printed.
#[derive(Drop)]
pub struct LineFilter<'a> {
    /// The lines.
    pub range: LineRange,
    /// A message at the line is from or to one of these addresses, if there are some.
    pub addresses: Vec<u8>,
    /// The message has one of these functions, if there are some.
    pub functions: Vec<u8>,
    /// The message names one of these objects, if there are some.
    pub objects: Vec<ObjectWord<'a>>,
}

/// The byte in two hex digits. `None` for any other text.
pub(crate) fn byte_in(text: &str) -> Option<u8> {
    let [byte] = <[u8; 1]>::from_hex(text).ok()?;
    Some(byte)
}

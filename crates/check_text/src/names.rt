//! The names of objects, from files.

ghost use Rattle.std.specs.Prelude.{◌≡◌, ℕ, None};
ghost use Rattle.std.specs.Option.{option_map};
ghost use Rattle.check_text.specs.Labels.{name_at};

use crate::name_line::NameLine;
use std::alloc::{AllocError, Global};
use std::collections::BTreeMap;
use vt_objects::ObjectId;

/// The names of objects. A later name of an ID replaces an earlier one.
#[derive(Drop)]
pub struct Names {
    names: BTreeMap<u16, String>,
}

/// What was read in a file of names.
#[derive(Clone, Copy, PartialEq, Eq)]
pub struct NamesRead {
    /// The number of names.
    pub names: usize,
    /// The lines of the form of a name that give no ID, if there are any.
    pub without_id: Option<LinesWithoutId>,
}

/// Lines of a file of names that give no ID.
#[derive(Clone, Copy, PartialEq, Eq)]
pub struct LinesWithoutId {
    /// The number of the first of these lines, counted from 1.
    pub first: usize,
    /// How many such lines follow.
    pub later: usize,
}

impl Names {
    /// No names. Allocates nothing.
    pub fn new(alloc: Global) -> Names
        ensures { (id : ℕ) → name_at result id ≡ None }
    {
        Names {
            names: BTreeMap::new(alloc),
        }
    }

    /// Adds the names of a file, and returns what was read. Its lines are `ID,NAME`, the form of Wireshark's object IDs, or those of a header
    /// in C: `#define NAME ID`, a member of an enum with its ID, or a constant. IDs are decimal, or hex after `0x`. A line of another form
    /// is skipped. Bytes that are not UTF-8 are read as Latin-1.
    pub fn add(&mut self, alloc: Global, bytes: &[u8]) -> Result<NamesRead, AllocError> {
        let mut read = NamesRead {
            names: 0,
            without_id: None,
        };
        let mut number = 0usize;
        for line in bytes.split(|byte| *byte == b'\n') {
            number = number.saturating_add(1);
            match std::str::from_utf8(line) {
                Ok(line) => self.add_line(alloc, line, number, &mut read)?,
                Err(_) => {
                    let line = from_latin_1(alloc, line)?;
                    self.add_line(alloc, line.as_str(), number, &mut read)?;
                }
            }
        }
        Ok(read)
    }

    /// Adds the name in a line, if it has one, by the line's number.
    fn add_line(
        &mut self,
        alloc: Global,
        line: &str,
        number: usize,
        read: &mut NamesRead,
    ) -> Result<(), AllocError> {
        match NameLine::read(line) {
            NameLine::Name { id, name } => {
                let name = String::from_str(alloc, name)?;
                self.names.insert(id, name)?;
                read.names = read.names.saturating_add(1);
            }
            NameLine::NoId => read.note_without_id(number),
            NameLine::Other => {}
        }
        Ok(())
    }

    /// The name of an object, or `None`.
    pub fn get(&self, id: ObjectId) -> Option<&str>
        ensures { option_map (λ name. name.now) result ≡ name_at self.now id }
    {
        match self.names.get(&id.raw()) {
            None => None,
            Some(name) => Some(name.as_str()),
        }
    }
}

impl NamesRead {
    /// Counts a line without an ID, by its number.
    fn note_without_id(&mut self, number: usize) {
        let lines = match self.without_id {
            None => LinesWithoutId {
                first: number,
                later: 0,
            },
            Some(LinesWithoutId { first, later }) => LinesWithoutId {
                first,
                later: later.saturating_add(1),
            },
        };
        self.without_id = Some(lines);
    }
}

/// The text of bytes in Latin-1, in which each byte is a character.
fn from_latin_1(alloc: Global, bytes: &[u8]) -> Result<String, AllocError> {
    let mut text = String::new(alloc);
    for byte in bytes {
        text.push(char::from(*byte))?;
    }
    Ok(text)
}

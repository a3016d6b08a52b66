//! A line of JSON.

ghost use Rattle.std.specs.Prelude.{◌≡◌, [], MatchOption, OnErr, OnOk};
ghost use Rattle.serde_json.specs.Data.{null, number, unsigned, put as with_member};
ghost use Rattle.serde_json.specs.View.{members_view, view};
ghost use Rattle.vt_cli.specs.Cells.{with_cells};
ghost use Rattle.vt_cli.specs.Numbers.{number_or_null};
ghost use Rattle.vt_cli.specs.Texts.{GainsText};

use crate::cell::Cell;
use serde_json::{Map, Value};
use std::alloc::{AllocError, Global};
use std::fmt;
use std::io::{self, Write};

/// An object of JSON that is built member by member. Its members are written by rising names.
#[derive(Drop)]
pub struct JsonLine {
    alloc: Global,
    members: Map<String, Value>,
}

impl JsonLine {
    /// An object without members. Does not allocate.
    pub fn new(alloc: Global) -> JsonLine
        ensures { result.members.entries ≡ [] }
    {
        JsonLine {
            alloc,
            members: Map::new(alloc),
        }
    }

    /// Adds a member, or replaces the one with this name. After `OutOfMemory` the object is unchanged.
    pub fn put(&mut self, name: &str, value: Value) -> Result<(), AllocError>
        ensures ok { OnOk result (members_view self.new.members.entries ≡ with_member name.now (view value) (members_view self.old.members.entries)) }
        ensures err { OnErr result (self.new.members.entries ≡ self.old.members.entries) }
    {
        serde_json::put(&mut self.members, self.alloc, name, value)
    }

    /// Adds members by their names. After `OutOfMemory` it has some of them.
    pub fn put_all(&mut self, members: &[(&str, Cell<'_>)]) -> Result<(), AllocError>
        ensures { OnOk result (members_view self.new.members.entries ≡ with_cells (members_view self.old.members.entries) members.now) }
    {
        for member in members {
            let value = member.1.value(self.alloc)?;
            self.put(member.0, value)?;
        }
        Ok(())
    }

    /// Adds a member with a text. After `OutOfMemory` the object is unchanged.
    pub fn put_text<T: fmt::Display + Drop>(
        &mut self,
        name: &str,
        text: T,
    ) -> Result<(), AllocError>
        ensures ok { OnOk result (GainsText name.now (members_view self.old.members.entries) (members_view self.new.members.entries)) }
        ensures err { OnErr result (self.new.members.entries ≡ self.old.members.entries) }
    {
        let text = format!(in self.alloc; "{text}")?;
        self.put(name, Value::String(text))
    }

    /// Adds a member with a number. After `OutOfMemory` the object is unchanged.
    pub fn put_number(&mut self, name: &str, value: u64) -> Result<(), AllocError>
        ensures ok { OnOk result (members_view self.new.members.entries ≡ with_member name.now (number (unsigned value)) (members_view self.old.members.entries)) }
        ensures err { OnErr result (self.new.members.entries ≡ self.old.members.entries) }
    {
        self.put(name, Value::from(value))
    }

    /// Adds a member with a text, or `null` if there is none. After `OutOfMemory` the object is unchanged.
    pub fn put_text_if<T: fmt::Display + Drop>(
        &mut self,
        name: &str,
        text: Option<T>,
    ) -> Result<(), AllocError>
        ensures ok { OnOk result (MatchOption text (members_view self.new.members.entries ≡ with_member name.now null (members_view self.old.members.entries))
            (λ _. GainsText name.now (members_view self.old.members.entries) (members_view self.new.members.entries))) }
        ensures err { OnErr result (self.new.members.entries ≡ self.old.members.entries) }
    {
        match text {
            Some(text) => self.put_text(name, text),
            None => self.put(name, Value::Null),
        }
    }

    /// Adds a member with the text of bytes in UTF-8, with a replacement character for each fault, or `null` if there are no bytes. After
    /// `OutOfMemory` the object is unchanged.
    pub fn put_bytes_if(&mut self, name: &str, bytes: Option<&[u8]>) -> Result<(), AllocError>
        ensures ok { OnOk result (MatchOption bytes.entry (members_view self.new.members.entries ≡ with_member name.now null (members_view self.old.members.entries))
            (λ _. GainsText name.now (members_view self.old.members.entries) (members_view self.new.members.entries))) }
        ensures err { OnErr result (self.new.members.entries ≡ self.old.members.entries) }
    {
        match bytes {
            Some(bytes) => {
                let text = String::from_utf8_lossy(self.alloc, bytes)?;
                self.put(name, Value::String(text))
            }
            None => self.put(name, Value::Null),
        }
    }

    /// Adds a member with a number, or `null` if there is none. After `OutOfMemory` the object is unchanged.
    pub fn put_number_if(&mut self, name: &str, value: Option<u64>) -> Result<(), AllocError>
        ensures ok { OnOk result (members_view self.new.members.entries ≡ with_member name.now (number_or_null value) (members_view self.old.members.entries)) }
        ensures err { OnErr result (self.new.members.entries ≡ self.old.members.entries) }
    {
        match value {
            Some(value) => self.put_number(name, value),
            None => self.put(name, Value::Null),
        }
    }

    /// Adds a member with an address in two hex digits. After `OutOfMemory` the object is unchanged.
    pub fn put_address(&mut self, name: &str, address: u8) -> Result<(), AllocError>
        ensures ok { OnOk result (GainsText name.now (members_view self.old.members.entries) (members_view self.new.members.entries)) }
        ensures err { OnErr result (self.new.members.entries ≡ self.old.members.entries) }
    {
        self.put_text(name, format_args!("{address:02X}"))
    }

    /// The object as a value.
    pub fn into_value(self) -> Value {
        Value::Object(self.members)
    }

    /// Writes the object as a line.
    pub fn write<W: Write>(self, out: &mut W) -> io::Result<()> {
        let alloc = self.alloc;
        writeln!(out, "{}", self.into_value().to_string(alloc)?)
    }
}

/// Writes an object with these members as a line.
pub fn put_line<W: Write>(
    alloc: Global,
    members: &[(&str, Cell<'_>)],
    out: &mut W,
) -> io::Result<()> {
    let mut line = JsonLine::new(alloc);
    line.put_all(members)?;
    line.write(out)
}

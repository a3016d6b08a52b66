//! A block of data in the page.

use crate::escape::put_escaped;
use std::alloc::Global;
use std::io::{self, Write};

/// How many lines a block may have.
#[derive(Clone, Copy, PartialEq, Eq)]
pub struct Room {
    /// How many lines may still be written.
    pub lines: u64,
    /// How many lines are left out.
    pub left_out: u64,
}

impl Room {
    /// Room for all lines.
    pub fn for_all() -> Room {
        Room::of(u64::MAX)
    }

    /// Room for so many lines.
    pub fn of(lines: u64) -> Room {
        Room { lines, left_out: 0 }
    }
}

/// Writes the data of a block: lines of JSON, escaped so that no text from outside ends the block. Lines for which there is no room are
/// counted.
#[derive(Drop)]
pub struct Block<'a, W> {
    out: &'a mut W,
    room: &'a mut Room,
    /// The buffer for the escaped text.
    escaped: Vec<u8>,
}

impl<'a, W: Write> Block<'a, W> {
    /// A block before its first line. Does not allocate.
    pub fn new(alloc: Global, out: &'a mut W, room: &'a mut Room) -> Block<'a, W> {
        Block {
            out,
            room,
            escaped: Vec::new(alloc),
        }
    }

    /// Writes a part of a line, without its newline, unless there is no room for the line.
    fn put_part(&mut self, part: &[u8]) -> io::Result<()> {
        if self.room.lines == 0 {
            return Ok(());
        }
        self.escaped.clear();
        put_escaped(part, &mut self.escaped)?;
        self.out.write_all(&self.escaped)
    }

    /// Ends a line.
    fn end_line(&mut self) -> io::Result<()> {
        if self.room.lines == 0 {
            self.room.left_out = self.room.left_out.saturating_add(1);
            return Ok(());
        }
        self.room.lines -= 1;
        self.out.write_all(b"\n")
    }
}

impl<W: Write> Write for Block<'_, W> {
    fn write(&mut self, buf: &[u8]) -> io::Result<usize> {
        for (index, part) in buf.split(|byte| *byte == b'\n').enumerate() {
            if index > 0 {
                self.end_line()?;
            }
            self.put_part(part)?;
        }
        Ok(buf.len())
    }

    fn flush(&mut self) -> io::Result<()> {
        self.out.flush()
    }
}

/// Begins a block of data with this name.
pub fn begin_block<W: Write>(name: &'static str, out: &mut W) -> io::Result<()> {
    writeln!(out, "<script type='application/json' id='{name}'>")
}

/// Ends a block of data.
pub fn end_block<W: Write>(out: &mut W) -> io::Result<()> {
    out.write_all(b"</script>\n")
}

//! How often something occurs in a log, and where first.

use std::alloc::Global;
use std::fmt;
use std::io::{self, Write};
use vt_cli::{Cell, put_line};

/// How often something occurs in a log, and where first.
#[derive(Clone, Copy, Default, PartialEq, Eq)]
pub struct Occurrences {
    /// How often. A count that would not fit stays at `u64::MAX`.
    pub count: u64,
    /// The number of the first line with it. 0 if there is none.
    pub first_line: u64,
}

impl Occurrences {
    /// Counts an occurrence at a line.
    pub fn note(&mut self, line: u64) {
        self.first_line = match self.count {
            0 => line,
            _ => self.first_line.min(line),
        };
        self.count = self.count.saturating_add(1);
    }

    /// Writes a line of JSON of this `"kind"`, with a member that names what occurs, unless it does not occur.
    pub fn put_json<'a, W: Write>(
        &self,
        alloc: Global,
        kind: &'a str,
        member: &'a str,
        name: &'a str,
        out: &mut W,
    ) -> io::Result<()> {
        if self.count == 0 {
            return Ok(());
        }
        let members = [
            ("count", Cell::Number(self.count)),
            ("first_line", Cell::Number(self.first_line)),
            ("kind", Cell::Text(kind)),
            (member, Cell::Text(name)),
        ];
        put_line(alloc, &members, out)
    }
}

/// The place of the first occurrence in words: `at line 5` if it is the only one, and otherwise `the first at line 5`.
#[derive(Clone, Copy, Drop)]
pub struct FirstPlace(pub Occurrences);

impl fmt::Display for FirstPlace {
    fn fmt<W: fmt::Write>(&self, f: &mut fmt::Formatter<W>) -> fmt::Result {
        let Occurrences { count, first_line } = self.0;
        match count {
            1 => write!(f, "at line {first_line}"),
            _ => write!(f, "the first at line {first_line}"),
        }
    }
}

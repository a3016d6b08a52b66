//! Lines that are passed over.

use log_times::{FirstPlace, Occurrences};
use std::alloc::Global;
use std::fmt;
use std::io::{self, Write};
use vt_can::{Line, LineFault, Skipped};
use vt_frames_text::Count;

/// The lines of a log that are passed over, by their sorts. Comments and operator lines are not among them. Its `Display` writes a line
/// for each sort that occurs.
#[derive(Clone, Copy, Default)]
pub struct LineCounts {
    /// Error frames.
    pub error: Occurrences,
    /// Remote frames.
    pub remote: Occurrences,
    /// CAN FD frames.
    pub fd: Occurrences,
    /// Standard frames, which have an identifier of 11 bits.
    pub short: Occurrences,
    /// Lines that cannot be read.
    pub faulty: Occurrences,
}

impl LineCounts {
    /// Counts a line, if it is passed over.
    pub(crate) fn take(&mut self, line: u64, reading: &Result<Line<'_>, LineFault>) {
        match reading {
            Ok(Line::Skipped(Skipped::Error)) => self.error.note(line),
            Ok(Line::Skipped(Skipped::Remote)) => self.remote.note(line),
            Ok(Line::Skipped(Skipped::Fd)) => self.fd.note(line),
            Ok(Line::Skipped(Skipped::Short)) => self.short.note(line),
            Err(_) => self.faulty.note(line),
            Ok(Line::Frame { .. } | Line::Operator(_) | Line::Comment) => {}
        }
    }

    /// Writes a line of JSON for each sort that occurs.
    pub(crate) fn put_json<W: Write>(&self, alloc: Global, out: &mut W) -> io::Result<()> {
        for (name, found) in self.sorts() {
            found.put_json(alloc, "passed_over", "what", name, out)?;
        }
        Ok(())
    }

    /// The sorts that occur, each by its name. The others have a count of 0.
    fn sorts(&self) -> [(&'static str, Occurrences); 5] {
        [
            ("error frame", self.error),
            ("remote frame", self.remote),
            ("CAN FD frame", self.fd),
            ("standard frame", self.short),
            ("faulty line", self.faulty),
        ]
    }
}

impl fmt::Display for LineCounts {
    fn fmt<W: fmt::Write>(&self, f: &mut fmt::Formatter<W>) -> fmt::Result {
        for (name, found) in self.sorts() {
            if found.count > 0 {
                let count = Count(found.count, name);
                writeln!(f, "passed over: {count}, {}", FirstPlace(found))?;
            }
        }
        Ok(())
    }
}

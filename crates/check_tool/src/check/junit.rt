//! The report of a check in the XML of JUnit, for CI: a test for each pool.

use std::alloc::Global;
use std::io::{self, Error, ErrorKind, Write};
use vt_cli::Status;
use vt_cli::xml::{attribute_of, text_of};

/// A report in the XML of JUnit. It is written when all pools are judged, because it begins with their number.
#[derive(Drop)]
pub(crate) struct Junit {
    alloc: Global,
    /// The elements of the pools so far.
    cases: Vec<u8>,
    /// The number of pools.
    count: u64,
    /// In how many of them something was found.
    failures: u64,
    /// How many could not be judged.
    errors: u64,
}

impl Junit {
    /// A report without pools.
    pub(crate) fn new(alloc: Global) -> Junit {
        Junit {
            alloc,
            cases: Vec::new(alloc),
            count: 0,
            failures: 0,
            errors: 0,
        }
    }

    /// Adds a pool with the status of its check, the lines for people, and what the error output says of it.
    pub(crate) fn put_case(
        &mut self,
        path: &str,
        status: Status,
        lines: &[u8],
        told: &[u8],
    ) -> io::Result<()> {
        self.count = self.count.saturating_add(1);
        let name = attribute_of(path);
        write!(
            self.cases,
            "    <testcase classname=\"segyolant check\" name=\"{name}\""
        )?;
        match status {
            Status::Clean => writeln!(self.cases, "/>"),
            Status::Found => self.put_failure(lines),
            Status::NotJudged => self.put_error(told),
        }
    }

    /// Ends the element of a pool in which something was found. The last line has the counts.
    fn put_failure(&mut self, lines: &[u8]) -> io::Result<()> {
        self.failures = self.failures.saturating_add(1);
        let text = String::from_utf8_lossy(self.alloc, lines)?;
        let counts = text.trim_end().rsplit('\n').next().unwrap_or("");
        writeln!(
            self.cases,
            ">\n      <failure message=\"{}\">{}</failure>\n    </testcase>",
            attribute_of(counts),
            text_of(&text)
        )
    }

    /// Ends the element of a pool that could not be judged. Each has a reason, unless memory was refused for it.
    fn put_error(&mut self, told: &[u8]) -> io::Result<()> {
        if !told.ends_with(b"\n") {
            return Err(Error::from(ErrorKind::OutOfMemory));
        }
        self.errors = self.errors.saturating_add(1);
        let told = String::from_utf8_lossy(self.alloc, told.trim_ascii_end())?;
        writeln!(
            self.cases,
            ">\n      <error message=\"{}\"/>\n    </testcase>",
            attribute_of(&told)
        )
    }

    /// Writes the document.
    pub(crate) fn write<W: Write>(&self, out: &mut W) -> io::Result<()> {
        out.write_all(b"<?xml version=\"1.0\" encoding=\"UTF-8\"?>\n<testsuites>\n")?;
        writeln!(
            out,
            "  <testsuite name=\"segyolant check\" tests=\"{}\" failures=\"{}\" errors=\"{}\">",
            self.count, self.failures, self.errors
        )?;
        out.write_all(&self.cases)?;
        out.write_all(b"  </testsuite>\n</testsuites>\n")
    }
}

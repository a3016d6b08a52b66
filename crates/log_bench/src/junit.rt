//! The report of a test in the XML of JUnit.

use crate::bench::Bench;
use crate::entries::Entry;
use crate::outcome::LogOutcome;
use crate::report::Differing;
use std::alloc::Global;
use std::io::{self, Error, ErrorKind, Write};
use vt_cli::xml::{attribute_of, text_of};
use vt_cli::{Open, Save, Status};

/// The front of a document.
const FRONT: &[u8] = b"<?xml version=\"1.0\" encoding=\"UTF-8\"?>\n<testsuites>\n";

/// The end of a document.
const END: &[u8] = b"  </testsuite>\n</testsuites>\n";

/// A report in the XML of JUnit. It is written when all logs are judged, because it begins with their number.
#[derive(Drop)]
pub(crate) struct JUnit {
    alloc: Global,
    /// The elements of the logs so far.
    cases: Vec<u8>,
    /// The number of logs.
    count: u64,
    /// How many of them differ.
    failures: u64,
    /// How many could not be judged.
    errors: u64,
}

impl JUnit {
    /// A report without logs.
    pub(crate) fn new(alloc: Global) -> JUnit {
        JUnit {
            alloc,
            cases: Vec::new(alloc),
            count: 0,
            failures: 0,
            errors: 0,
        }
    }

    /// Tests a log, or writes it anew, and adds what became of it. `errors` receives what it receives without a report.
    pub(crate) fn take<F: Open + Save, E: Write>(
        &mut self,
        bench: &Bench<'_>,
        entry: &Entry,
        files: &mut F,
        errors: &mut E,
    ) -> io::Result<Status> {
        let mut text = Vec::new(self.alloc);
        let mut told = Vec::new(self.alloc);
        let outcome = bench.run(entry, files, &mut text, &mut told);
        let _ = errors.write_all(&told);
        let outcome = outcome?;
        // Each log that is not judged has a reason, which ends with a newline unless memory was refused for it.
        if outcome == LogOutcome::NotJudged && !told.ends_with(b"\n") {
            return Err(Error::from(ErrorKind::OutOfMemory));
        }
        self.put_case(entry.path.as_str(), outcome, &text, &told)?;
        Ok(outcome.status())
    }

    /// Adds the element of a log, with the text of its report and what the error output says of it.
    fn put_case(
        &mut self,
        path: &str,
        outcome: LogOutcome,
        text: &[u8],
        told: &[u8],
    ) -> io::Result<()> {
        let (folder, name) = parts_of(path);
        self.count = self.count.saturating_add(1);
        write!(
            self.cases,
            "    <testcase classname=\"{}\" name=\"{}\"",
            attribute_of(folder),
            attribute_of(name)
        )?;
        match outcome {
            LogOutcome::Differs(count) => self.put_failure(count, text),
            LogOutcome::NotJudged => self.put_error(told),
            LogOutcome::Met | LogOutcome::Written | LogOutcome::Same => writeln!(self.cases, "/>"),
        }
    }

    /// Ends the element of a log that differs.
    fn put_failure(&mut self, count: usize, text: &[u8]) -> io::Result<()> {
        self.failures = self.failures.saturating_add(1);
        let text = String::from_utf8_lossy(self.alloc, text)?;
        writeln!(
            self.cases,
            ">\n      <failure message=\"{}\">{}</failure>\n    </testcase>",
            Differing { count },
            text_of(&text)
        )
    }

    /// Ends the element of a log that could not be judged.
    fn put_error(&mut self, told: &[u8]) -> io::Result<()> {
        self.errors = self.errors.saturating_add(1);
        let told = String::from_utf8_lossy(self.alloc, told.trim_ascii_end())?;
        writeln!(
            self.cases,
            ">\n      <error message=\"{}\"/>\n    </testcase>",
            attribute_of(&told)
        )
    }

    /// Writes the document.
    pub(crate) fn write<W: Write>(&self, out: &mut W) -> io::Result<()> {
        out.write_all(FRONT)?;
        writeln!(
            out,
            "  <testsuite name=\"segyolant_log test\" tests=\"{}\" failures=\"{}\" errors=\"{}\">",
            self.count, self.failures, self.errors
        )?;
        out.write_all(&self.cases)?;
        out.write_all(END)
    }
}

/// The folder of a path, `.` if it names none, and the name in it.
fn parts_of(path: &str) -> (&str, &str) {
    match path.trim_end_matches('/').rsplit_once('/') {
        Some(("", name)) => ("/", name),
        Some(parts) => parts,
        None => (".", path),
    }
}

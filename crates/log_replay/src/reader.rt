//! Reads the lines of a log.

ghost use Rattle.std.specs.Prelude.{◌≡◌, IfOk, option_map};
ghost use Rattle.vt_can.specs.lines.Readings.{reading_of};
ghost use Rattle.log_replay.specs.Interfaces.{IsReadingFrom, wanted};

use memchr::memchr;
use std::alloc::{AllocError, Global};
use std::fmt;
use std::io::Write;
use vt_can::{Line, LineFault};
use vt_cli::Program;
use vt_recorded::{LineHint, Reader, interface_in, is_of_interface};

/// Reads the lines of a log: all of its frames, or those of one interface.
#[derive(Drop)]
pub struct LogReader<'a> {
    reader: Reader,
    /// The only interface whose frames are read.
    interface: Option<&'a str>,
    remarks: Remarks,
}

impl<'a> LogReader<'a> {
    /// A reader before the first line. Does not allocate.
    pub fn new(alloc: Global, interface: Option<&'a str>) -> LogReader<'a>
        ensures { wanted result ≡ option_map (λ name. name.now) interface.entry }
    {
        LogReader {
            reader: Reader::new(alloc),
            interface,
            remarks: Remarks {
                first: Vec::new(alloc),
                other: Vec::new(alloc),
                has_more: false,
                index: 0,
                lines: 0,
                faults: 0,
                hint: None,
            },
        }
    }

    /// Reads a line, given without its newline. A line of another interface counts as a comment. The inner result has the fault of the
    /// line. After `OutOfMemory` the reader is of no more use.
    #[inline]
    pub fn read<'b>(&'b mut self, line: &'b [u8]) -> Result<Result<Line<'b>, LineFault>, AllocError>
        ensures { IfOk result (λ reading. IsReadingFrom (wanted self.old) line.now (reading_of reading)) }
    {
        self.remarks.lines = self.remarks.lines.saturating_add(1);
        if !is_of_interface(line, self.interface) {
            return Ok(Ok(Line::Comment));
        }
        let reading = self.reader.read(line)?;
        self.remarks.note(line, &reading)?;
        Ok(reading)
    }

    /// Whether a frame was read.
    pub fn has_frames(&self) -> bool {
        !self.remarks.first.is_empty()
    }

    /// The likely cause of the first faulty line. `None` if there is none, or if it does not show the cause.
    pub(crate) fn hint(&self) -> Option<LineHint> {
        self.remarks.hint
    }

    /// The interfaces whose frames were read. `None` if there are none, or if their names are no printable text.
    pub(crate) fn interfaces(&self) -> Option<Interfaces<'_>> {
        let Remarks {
            other,
            has_more,
            ..
        } = &self.remarks;
        let other = if other.is_empty() {
            None
        } else {
            Some(printable(other)?)
        };
        Some(Interfaces {
            first: self.remarks.first_name()?,
            other,
            has_more: *has_more,
        })
    }

    /// Writes to `errors` how many of the lines of a log were faulty, if some were, and that frames of several interfaces were read, if
    /// they were.
    pub fn tell_lines<F: Program, E: Write>(&self, path: &str, files: &F, errors: &mut E) {
        let program = files.name();
        let faults = self.remarks.faults;
        if faults > 0 {
            let verb = if faults == 1 { "is" } else { "are" };
            let _ = writeln!(
                errors,
                "{program}: {path}: {faults} of its lines {verb} faulty; trace shows each with its fault"
            );
        }
        if let (true, Some(hint)) = (self.has_frames(), self.remarks.hint) {
            let _ = writeln!(errors, "{program}: {path}: {hint}");
        }
        self.remarks.tell_interfaces(program, path, errors);
    }
}

/// The interfaces of a log, in words: the first two, and whether there are more.
#[derive(Clone, Copy, Drop)]
pub(crate) struct Interfaces<'a> {
    first: &'a str,
    other: Option<&'a str>,
    has_more: bool,
}

impl fmt::Display for Interfaces<'_> {
    fn fmt<W: fmt::Write>(&self, f: &mut fmt::Formatter<W>) -> fmt::Result {
        let first = self.first;
        match self.other {
            None => write!(f, "{first}"),
            Some(other) if self.has_more => write!(f, "{first}, {other} and others"),
            Some(other) => write!(f, "{first} and {other}"),
        }
    }
}

/// A name as a text, if it is printable.
fn printable(name: &[u8]) -> Option<&str> {
    if !name.iter().all(u8::is_ascii_graphic) {
        return None;
    }
    str::from_utf8(name).ok()
}

/// What people should know of the lines that were read.
#[derive(Drop)]
struct Remarks {
    /// The interface of the first frame, between two spaces; empty before it.
    first: Vec<u8>,
    /// The index of the space before the interface, in the last line whose interface was looked for.
    index: usize,
    /// The second interface whose frames were read; empty before it.
    other: Vec<u8>,
    /// Whether frames of a third one were read.
    has_more: bool,
    /// The number of lines so far.
    lines: u64,
    /// The number of lines with a fault.
    faults: u64,
    /// The likely cause of the first fault.
    hint: Option<LineHint>,
}

impl Remarks {
    /// Notes a line as it was read.
    fn note(
        &mut self,
        line: &[u8],
        reading: &Result<Line<'_>, LineFault>,
    ) -> Result<(), AllocError> {
        match reading {
            Ok(Line::Frame { .. }) => self.note_frame(line),
            Ok(_) => Ok(()),
            Err(fault) => {
                if self.faults == 0 {
                    self.hint = LineHint::of(self.lines, *fault, line);
                }
                self.faults = self.faults.saturating_add(1);
                Ok(())
            }
        }
    }

    /// Notes a line with a frame.
    fn note_frame(&mut self, line: &[u8]) -> Result<(), AllocError> {
        if self.is_of_first(line) {
            return Ok(());
        }
        let name = interface_in(line).unwrap_or(&[]);
        self.index = memchr(b' ', line).unwrap_or(0);
        if self.first.is_empty() {
            self.first.push(b' ')?;
            self.first.extend_from_slice(name)?;
            self.first.push(b' ')?;
        }
        if self.is_first(name) {
            return Ok(());
        }
        if self.other.is_empty() {
            self.other.extend_from_slice(name)?;
        }
        self.has_more |= self.other.as_slice() != name;
        Ok(())
    }

    /// Writes to `errors` that frames of several interfaces were read, if they were. Names that are no printable text are left out.
    fn tell_interfaces<E: Write>(&self, program: &str, path: &str, errors: &mut E) {
        if self.other.is_empty() {
            return;
        }
        let more = if self.has_more { " and others" } else { "" };
        let _ = match self.names() {
            Some((first, other)) => writeln!(
                errors,
                "{program}: {path}: frames of {first}, {other}{more} are taken as those of one bus; --interface {first} takes those of one"
            ),
            None => writeln!(
                errors,
                "{program}: {path}: frames of several interfaces are taken as those of one bus; --interface takes those of one"
            ),
        };
    }

    /// The names of the first two interfaces, if they are printable text.
    fn names(&self) -> Option<(&str, &str)> {
        Some((self.first_name()?, printable(&self.other)?))
    }

    /// The name of the first interface, if there is one and it is printable text.
    fn first_name(&self) -> Option<&str> {
        match self.first.as_slice() {
            [_, first @ .., _] => printable(first),
            _ => None,
        }
    }

    /// Whether an interface is the first one.
    fn is_first(&self, name: &[u8]) -> bool {
        match self.first.as_slice() {
            [_, first @ .., _] => first == name,
            _ => false,
        }
    }

    /// Whether a line names the first interface at the place where the line before it did. A time with more digits moves that place.
    fn is_of_first(&self, line: &[u8]) -> bool {
        let is_there = |rest: &[u8]| rest.starts_with(&self.first);
        !self.first.is_empty() && line.get(self.index..).is_some_and(is_there)
    }
}

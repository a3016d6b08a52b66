//! A log, and passes over its lines.

use crate::feed::{Feed, TakeLine};
use crate::messages::Messages;
use crate::reader::LogReader;
use std::alloc::Global;
use std::io::{self, ErrorKind, Read, Write};
use vt_can::{Line, LineFault};
use vt_cli::{Open, Program, read_file};
use vt_recorded::LineHint;

/// The bytes that are read at once, at most.
const CHUNK: usize = 65_536;

/// The reads of a file, at most: more than any file has.
const READS: u64 = 1 << 62;

/// What a subcommand does with each line of a log.
pub trait Pass<F, W, E> {
    /// Processes a line, as it was read. Its number counts from 1.
    fn line(
        &mut self,
        number: u64,
        reading: Result<Line<'_>, LineFault>,
        files: &mut F,
        out: &mut W,
        errors: &mut E,
    ) -> io::Result<()>;
}

/// Only reads the lines.
impl<F, W, E> Pass<F, W, E> for () {
    fn line(
        &mut self,
        _number: u64,
        _reading: Result<Line<'_>, LineFault>,
        _files: &mut F,
        _out: &mut W,
        _errors: &mut E,
    ) -> io::Result<()> {
        Ok(())
    }
}

/// A log, of which the frames of all interfaces are read, or those of one. A file is read anew in each pass, so a long one needs no more
/// memory than a short one.
#[derive(Drop)]
pub struct Log<'a> {
    alloc: Global,
    path: &'a str,
    interface: Option<&'a str>,
    origin: Origin,
}

/// Where the bytes of a log come from in a pass.
#[derive(Drop)]
enum Origin {
    /// From its file, which had so many of them when it was opened first.
    File(u64),
    /// From memory, because its file can be read only once.
    Held(Vec<u8>),
    /// From the standard input as they come, in the only pass.
    Input,
}

impl<'a> Log<'a> {
    /// Opens the file of a log. One that can be read only once, such as a pipe, is read into memory. `None` if it cannot be opened or
    /// read: then `errors` receives the reason.
    pub fn open<F: Open, E: Write>(
        alloc: Global,
        path: &'a str,
        interface: Option<&'a str>,
        files: &mut F,
        errors: &mut E,
    ) -> io::Result<Option<Log<'a>>> {
        let origin = match files.size(path) {
            Some(size) => open_file(path, files, errors)?.map(|_file| Origin::File(size)),
            None => read_file(alloc, path, files, errors)?.map(Origin::Held),
        };
        Ok(origin.map(|origin| Log {
            alloc,
            path,
            interface,
            origin,
        }))
    }

    /// As `open`, but the standard input is not read before the pass over it, which takes its lines as they come and is the only one.
    pub fn follow<F: Open, E: Write>(
        alloc: Global,
        path: &'a str,
        interface: Option<&'a str>,
        files: &mut F,
        errors: &mut E,
    ) -> io::Result<Option<Log<'a>>> {
        if path == "-" {
            return Ok(Some(Log::input(alloc, interface)));
        }
        Log::open(alloc, path, interface, files, errors)
    }

    /// The standard input, which is read only in a pass, as it comes.
    pub(crate) fn input(alloc: Global, interface: Option<&'a str>) -> Log<'a> {
        Log {
            alloc,
            path: "-",
            interface,
            origin: Origin::Input,
        }
    }

    /// The path of the file.
    pub fn path(&self) -> &'a str {
        self.path
    }

    /// The only interface whose frames are read, or `None` for all.
    pub fn interface(&self) -> Option<&'a str> {
        self.interface
    }

    /// Whether the log can be read more than once.
    pub(crate) fn can_be_read_again(&self) -> bool {
        !matches!(self.origin, Origin::Input)
    }

    /// Gives each line to `pass`. Then writes to `errors` how many lines were faulty, and that there are several interfaces, or no frame.
    /// Returns whether a frame was read, and the log to its end; if it was not, `errors` receives the reason.
    pub fn pass<P: Pass<F, W, E>, F: Open, W: Write, E: Messages>(
        &self,
        pass: &mut P,
        files: &mut F,
        out: &mut W,
        errors: &mut E,
    ) -> io::Result<bool> {
        let reader = LogReader::new(self.alloc, self.interface);
        let mut reading = Reading { reader, pass };
        if !self.each_line(&mut reading, files, out, errors)? {
            return Ok(false);
        }
        let reader = &reading.reader;
        reader.tell_lines(self.path, files, errors);
        if !reader.has_frames() {
            match self.origin {
                Origin::Input => self.tell_without_frame(reader, files, errors),
                Origin::File(_) | Origin::Held(_) => self.tell_no_frame(files, errors)?,
            }
        }
        Ok(reader.has_frames())
    }

    /// Gives the bytes of each line to `taker`. Returns whether the log was read to its end; if not, `errors` receives the reason.
    pub fn each_line<T: TakeLine<F, W, E>, F: Open, W: Write, E: Messages>(
        &self,
        taker: &mut T,
        files: &mut F,
        out: &mut W,
        errors: &mut E,
    ) -> io::Result<bool> {
        match &self.origin {
            Origin::Held(bytes) => {
                let size = bytes.len() as u64;
                let mut memory = bytes.as_slice();
                self.read(&mut memory, Some(size), taker, files, out, errors)
            }
            Origin::File(size) => match open_file(self.path, files, errors)? {
                Some(mut file) => self.read(&mut file, Some(*size), taker, files, out, errors),
                None => Ok(false),
            },
            Origin::Input => match open_file(self.path, files, errors)? {
                Some(mut input) => self.read(&mut input, None, taker, files, out, errors),
                None => Ok(false),
            },
        }
    }

    /// Gives the lines of an input to `taker`. Of one with a size no more bytes are read, and `errors` receives how many have come; of
    /// any other, what is printed is written out before more is read. Returns whether the input was read to its end; if not, `errors`
    /// receives the reason.
    fn read<R: Read, T: TakeLine<F, W, E>, F: Program, W: Write, E: Messages>(
        &self,
        input: &mut R,
        size: Option<u64>,
        taker: &mut T,
        files: &mut F,
        out: &mut W,
        errors: &mut E,
    ) -> io::Result<bool> {
        let mut feed = Feed::new(self.alloc);
        let mut chunk = vec![in self.alloc; 0; CHUNK]?;
        let mut taken = 0_u64;
        for _ in 0..READS {
            if size.is_some_and(|size| taken >= size) {
                break;
            }
            if size.is_none() {
                out.flush()?;
            }
            match input.read(&mut chunk) {
                Ok(0) => break,
                Ok(count) => {
                    let left = size.unwrap_or(u64::MAX).saturating_sub(taken);
                    let count = left.min(count as u64);
                    let bytes = chunk.get(..count as usize).unwrap_or(&[]);
                    feed.take(bytes, taker, files, out, errors)?;
                    taken = taken.saturating_add(count);
                    if let Some(size) = size {
                        errors.show_progress(taken, size);
                    }
                }
                Err(error) if error.kind() == ErrorKind::Interrupted => {}
                Err(error) => {
                    let _ = writeln!(errors, "{}: {}: {error}", files.name(), self.path);
                    return Ok(false);
                }
            }
        }
        feed.end(taker, files, out, errors)?;
        Ok(true)
    }

    /// Writes to `errors` that the log has no frame, or none of its interface, and the likely cause.
    pub fn tell_no_frame<F: Open, E: Messages>(
        &self,
        files: &mut F,
        errors: &mut E,
    ) -> io::Result<()> {
        let mut all = ReadLines {
            reader: LogReader::new(self.alloc, None),
        };
        let mut nothing = Vec::new(self.alloc);
        if self.can_be_read_again() && !self.each_line(&mut all, files, &mut nothing, errors)? {
            return Ok(());
        }
        self.tell_without_frame(&all.reader, files, errors);
        Ok(())
    }

    /// Writes to `errors` that the log has no frame, or none of its interface, and the likely cause by what was read of it.
    fn tell_without_frame<F: Program, E: Write>(
        &self,
        read: &LogReader<'_>,
        files: &F,
        errors: &mut E,
    ) {
        let hint = read.hint();
        let Some(interface) = self.interface else {
            tell_no_frame(self.path, hint, files, errors);
            return;
        };
        let (name, path) = (files.name(), self.path);
        if let Some(what) = hint.and_then(LineHint::form) {
            let _ = writeln!(errors, "{name}: {path}: {what}");
            return;
        }
        let _ = match read.interfaces() {
            Some(there) => writeln!(
                errors,
                "{name}: {path}: no frame of {interface} could be read; the log has frames of {there}"
            ),
            None => writeln!(
                errors,
                "{name}: {path}: no frame of {interface} could be read; expected --interface with an interface of the log"
            ),
        };
    }
}

/// Writes to `errors` that a log has no frame, and the likely cause: the hint that its first faulty line gives.
pub fn tell_no_frame<F: Program, E: Write>(
    path: &str,
    hint: Option<LineHint>,
    files: &F,
    errors: &mut E,
) {
    let name = files.name();
    let _ = match (hint.and_then(LineHint::form), hint) {
        (Some(what), _) => writeln!(errors, "{name}: {path}: {what}"),
        (None, Some(hint)) => { writeln!(errors, "{name}: {path}: no frame could be read; {hint}") }
        (None, None) => writeln!(
            errors,
            "{name}: {path}: no frame could be read; expected a log such as candump -L writes"
        ),
    };
}

/// Opens a file. `None` if it cannot be opened: then `errors` receives the reason.
fn open_file<F: Open, E: Write>(
    path: &str,
    files: &mut F,
    errors: &mut E,
) -> io::Result<Option<F::Reader>> {
    match files.open(path) {
        Ok(file) => Ok(Some(file)),
        Err(error) if error.kind() == ErrorKind::OutOfMemory => Err(error),
        Err(error) => {
            let _ = writeln!(errors, "{}: {path}: {error}", files.name());
            Ok(None)
        }
    }
}

/// Reads each line, and gives it to a pass.
#[derive(Drop)]
struct Reading<'a, P> {
    reader: LogReader<'a>,
    pass: &'a mut P,
}

impl<F, W, E, P: Pass<F, W, E>> TakeLine<F, W, E> for Reading<'_, P> {
    #[inline]
    fn take_line(
        &mut self,
        number: u64,
        line: &[u8],
        files: &mut F,
        out: &mut W,
        errors: &mut E,
    ) -> io::Result<()> {
        let reading = self.reader.read(line)?;
        self.pass.line(number, reading, files, out, errors)
    }
}

/// Only reads each line.
#[derive(Drop)]
struct ReadLines<'a> {
    reader: LogReader<'a>,
}

impl<F, W, E> TakeLine<F, W, E> for ReadLines<'_> {
    fn take_line(
        &mut self,
        _number: u64,
        line: &[u8],
        _files: &mut F,
        _out: &mut W,
        _errors: &mut E,
    ) -> io::Result<()> {
        let _ = self.reader.read(line)?;
        Ok(())
    }
}

//! Sources of logs and sinks of replays. Those over memory promise more than those of the system.

ghost use Rattle.std.specs.Prelude.{◌≡◌, ◌≢◌, Bool, true, false, length, Some, None, IsOk, IfOk, IfErr, MatchOption};
ghost use Rattle.std.specs.Io.{ReadsAtMost, WritesAtMost};
ghost use Rattle.std.specs.Io.KnownBytes.{Keeps, ReadConsumes, WriteAppends};
ghost use Rattle.std.specs.IoError.{error_kind};

use std::io::{self, Error, ErrorKind, Read, Write};

/// A reader of a log.
pub trait Source: Read {
    // Whether no read fails.
    ghost steady: { Bool } = { false };

    /// Reads the next bytes of the log into a buffer, and returns their number: 0 at the end, or for an empty buffer.
    fn next_bytes(&mut self, buf: &mut [u8]) -> io::Result<usize>
        ensures bound { ReadsAtMost result buf.new }
        ensures bytes { ReadConsumes (Self.remaining self.old) (Self.remaining self.new) result buf.new }
        ensures steady { steady ≡ true → IsOk result };
}

/// A writer of the text of a replay.
pub trait Sink: Write {
    // Whether each write takes all its bytes, or fails with OutOfMemory.
    ghost steady: { Bool } = { false };

    /// Returns the cause of the last failure, if the sink keeps it.
    fn cause(&self) -> Option<&Error> {
        None
    }

    /// Writes the first bytes of a slice, and returns their number.
    fn write_some(&mut self, bytes: &[u8]) -> io::Result<usize>
        ensures bound { WritesAtMost result bytes.now }
        ensures bytes { WriteAppends (Self.contents self.old) (Self.contents self.new) result bytes.now }
        ensures whole { steady ≡ true → IfOk result (λ count. count ≡ length bytes.now) }
        ensures refused { steady ≡ true → IfErr result (λ error. error_kind error ≡ ErrorKind.OutOfMemory) };

    /// Flushes the writer.
    fn write_out(&mut self) -> io::Result<()>
        ensures bytes { Keeps (Self.contents self.old) (Self.contents self.new) }
        ensures steady { steady ≡ true → IsOk result };
}

impl Source for &[u8] {
    ghost steady = { true };

    fn next_bytes(&mut self, buf: &mut [u8]) -> io::Result<usize> {
        Read::read(self, buf)
    }
}

impl Sink for Vec<u8> {
    ghost steady = { true };

    fn write_some(&mut self, bytes: &[u8]) -> io::Result<usize> {
        Write::write(self, bytes)
    }

    fn write_out(&mut self) -> io::Result<()> {
        Write::flush(self)
    }
}

/// A reader or a writer of any sort, such as a file or a pipe. It keeps the cause of its last failure.
#[derive(Drop)]
pub struct Stream<T> {
    inner: T,
    cause: Option<Error>,
}

impl<T> Stream<T> {
    /// The stream of a reader or a writer, before any failure.
    pub fn new(inner: T) -> Stream<T>
        ensures { result.inner ≡ inner }
    {
        Stream { inner, cause: None }
    }

    /// Returns the cause of the last failure.
    pub fn failure(&self) -> Option<&Error>
        ensures { MatchOption result (self.now.cause ≡ None) (λ cause. self.now.cause ≡ Some cause.now) }
    {
        self.cause.as_ref()
    }

    /// Keeps the cause of a failure, and returns an error of its kind. An interruption is not kept, since the call is repeated.
    fn keep(&mut self, cause: Error) -> Error
        ensures inner { self.new.inner ≡ self.old.inner }
        ensures kind { error_kind result ≡ error_kind cause }
        ensures kept { error_kind cause ≢ ErrorKind.Interrupted → self.new.cause ≡ Some cause }
        ensures interrupted { error_kind cause ≡ ErrorKind.Interrupted → self.new.cause ≡ self.old.cause }
    {
        let kind = cause.kind();
        if kind != ErrorKind::Interrupted {
            self.cause = Some(cause);
        }
        Error::from(kind)
    }

    /// Returns the reader or the writer.
    pub fn get_ref(&self) -> &T
        ensures { result.now ≡ self.now.inner }
    {
        &self.inner
    }
}

impl<T: Drop> Stream<T> {
    /// Drops the reader or the writer, and returns the cause of the last failure.
    pub fn into_failure(self) -> Option<Error>
        ensures { result ≡ self.cause }
    {
        self.cause
    }
}

impl<R: Read> Read for Stream<R> {
    ghost remaining = { λ stream. R.remaining stream.inner };

    fn read(&mut self, buf: &mut [u8]) -> io::Result<usize> {
        match self.inner.read(buf) {
            Ok(count) => Ok(count),
            Err(cause) => Err(self.keep(cause)),
        }
    }
}

impl<R: Read> Source for Stream<R> {
    fn next_bytes(&mut self, buf: &mut [u8]) -> io::Result<usize> {
        Read::read(self, buf)
    }
}

impl<W: Write> Write for Stream<W> {
    ghost contents = { λ stream. W.contents stream.inner };

    fn write(&mut self, bytes: &[u8]) -> io::Result<usize> {
        match self.inner.write(bytes) {
            Ok(count) => Ok(count),
            Err(cause) => Err(self.keep(cause)),
        }
    }

    fn flush(&mut self) -> io::Result<()> {
        match self.inner.flush() {
            Ok(()) => Ok(()),
            Err(cause) => Err(self.keep(cause)),
        }
    }
}

impl<W: Write> Sink for Stream<W> {
    fn cause(&self) -> Option<&Error> {
        self.failure()
    }

    fn write_some(&mut self, bytes: &[u8]) -> io::Result<usize> {
        Write::write(self, bytes)
    }

    fn write_out(&mut self) -> io::Result<()> {
        Write::flush(self)
    }
}

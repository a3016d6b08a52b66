//! Cuts the bytes of a log into lines, as they come.

use memchr::memchr_iter;
use std::alloc::{AllocError, Global};
use std::io;

/// The bytes of a line that are kept. No line that can be read is longer.
const LONGEST: usize = 65_536;

/// What is done with each line of a log.
pub trait TakeLine<F, W, E> {
    /// Takes a line, given without its newline. Its number counts from 1.
    fn take_line(
        &mut self,
        number: u64,
        line: &[u8],
        files: &mut F,
        out: &mut W,
        errors: &mut E,
    ) -> io::Result<()>;

    /// The most bytes of a line that are looked at. Those behind them may be cut off.
    fn longest(&self) -> usize {
        LONGEST
    }
}

/// Cuts the bytes of a log into lines, as they come.
#[derive(Drop)]
pub(crate) struct Feed {
    /// The bytes of the line whose newline is still to come.
    line: Vec<u8>,
    /// The number of lines so far.
    number: u64,
}

impl Feed {
    /// Before the first byte. Does not allocate.
    pub(crate) fn new(alloc: Global) -> Feed {
        Feed {
            line: Vec::new(alloc),
            number: 0,
        }
    }

    /// Takes the next bytes, and gives each line that ends in them to `taker`.
    pub(crate) fn take<T: TakeLine<F, W, E>, F, W, E>(
        &mut self,
        bytes: &[u8],
        taker: &mut T,
        files: &mut F,
        out: &mut W,
        errors: &mut E,
    ) -> io::Result<()> {
        let mut start = 0_usize;
        for end in memchr_iter(b'\n', bytes) {
            let part = bytes.get(start..end).unwrap_or(&[]);
            start = end.saturating_add(1);
            if self.line.is_empty() {
                self.number = self.number.saturating_add(1);
                taker.take_line(self.number, part, files, out, errors)?;
            } else {
                self.keep(part, taker.longest())?;
                self.end(taker, files, out, errors)?;
            }
        }
        self.keep(bytes.get(start..).unwrap_or(&[]), taker.longest())?;
        Ok(())
    }

    /// Gives the line without a newline to `taker`, if it has a byte.
    pub(crate) fn end<T: TakeLine<F, W, E>, F, W, E>(
        &mut self,
        taker: &mut T,
        files: &mut F,
        out: &mut W,
        errors: &mut E,
    ) -> io::Result<()> {
        if self.line.is_empty() {
            return Ok(());
        }
        self.number = self.number.saturating_add(1);
        taker.take_line(self.number, &self.line, files, out, errors)?;
        self.line.clear();
        Ok(())
    }

    /// Appends the next bytes of a line, of which at most so many are kept.
    fn keep(&mut self, part: &[u8], longest: usize) -> Result<(), AllocError> {
        let room = longest.saturating_sub(self.line.len()).min(part.len());
        self.line.extend_from_slice(part.get(..room).unwrap_or(&[]))
    }
}

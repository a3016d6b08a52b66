//! Moments of a log, and times in words.

use std::fmt;

/// The place of a frame in its log.
#[derive(Clone, Copy, PartialEq, Eq)]
pub struct Moment {
    /// The number of the line.
    pub line: u64,
    /// The latest time up to the line, in microseconds.
    pub time: u64,
}

impl Moment {
    ghost use Rattle.std.specs.Prelude.{◌≡◌, ◌-◌};

    /// The microseconds from an earlier moment to this one.
    pub fn since(self, earlier: Moment) -> u64
        ensures { result ≡ self.time - earlier.time }
    {
        self.time.saturating_sub(earlier.time)
    }
}

/// A time or a span in microseconds, which its `Display` writes in seconds, such as `12.000345`.
#[derive(Clone, Copy, PartialEq, Eq)]
pub struct Seconds(pub u64);

impl fmt::Display for Seconds {
    fn fmt<W: fmt::Write>(&self, f: &mut fmt::Formatter<W>) -> fmt::Result {
        let whole = self.0 / 1_000_000;
        let micros = self.0 % 1_000_000;
        write!(f, "{whole}.{micros:06}")
    }
}

/// A span in microseconds, which its `Display` writes in milliseconds, such as `1.500 ms`.
#[derive(Clone, Copy)]
pub struct Milliseconds(pub u64);

impl fmt::Display for Milliseconds {
    fn fmt<W: fmt::Write>(&self, f: &mut fmt::Formatter<W>) -> fmt::Result {
        let whole = self.0 / 1000;
        let micros = self.0 % 1000;
        write!(f, "{whole}.{micros:03} ms")
    }
}

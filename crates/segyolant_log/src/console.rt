//! The error output of the process.

use log_tool::Messages;
use std::io::{self, IsTerminal, Stderr, Write};
use std::time::Instant;

/// The milliseconds of a run before it shows how far it has come, and between two such texts.
const BETWEEN: u128 = 1000;

/// The error output. If it is a terminal, it shows how far a run has come, once it takes over a second.
#[derive(Drop)]
pub(crate) struct Console<'a> {
    rt: &'a HostRuntime,
    errors: Stderr,
    /// When the run has begun, or has last shown how far it has come. `None` if it shows nothing.
    last: Option<Instant>,
    /// Whether it has shown how far it has come.
    has_shown: bool,
}

impl<'a> Console<'a> {
    /// The error output of the process.
    pub(crate) fn new(rt: &'a HostRuntime) -> Console<'a> {
        let errors = rt.stderr();
        let last = if errors.is_terminal() {
            Instant::now(rt).ok()
        } else {
            None
        };
        Console {
            rt,
            errors,
            last,
            has_shown: false,
        }
    }

    /// Removes the text that shows how far the run has come.
    pub(crate) fn end_progress(&mut self) {
        if self.has_shown {
            let _ = write!(self.errors, "     \r");
        }
    }
}

impl Write for Console<'_> {
    fn write(&mut self, buf: &[u8]) -> io::Result<usize> {
        self.errors.write(buf)
    }

    fn flush(&mut self) -> io::Result<()> {
        self.errors.flush()
    }
}

impl Messages for Console<'_> {
    // The text is shorter than any line of a report, and the next text begins where it did.
    fn show_progress(&mut self, taken: u64, bytes: u64) {
        let Some(last) = self.last else {
            return;
        };
        let Ok(passed) = last.elapsed(self.rt) else {
            return;
        };
        if passed.as_millis() < BETWEEN {
            return;
        }
        self.last = Instant::now(self.rt).ok();
        let percent = taken.saturating_mul(100).checked_div(bytes).unwrap_or(0);
        let _ = write!(self.errors, "{percent:3} %\r");
        self.has_shown = true;
    }
}

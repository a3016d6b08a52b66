//! The messages and the progress of a run.

use std::io::Write;

/// Receives the messages of a run, and how far it has come.
pub trait Messages: Write {
    /// Receives how many of the `bytes` of a log a run has processed.
    fn show_progress(&mut self, taken: u64, bytes: u64);
}

/// Keeps the messages in memory, and not how far a run has come.
impl Messages for Vec<u8> {
    fn show_progress(&mut self, _taken: u64, _bytes: u64) {}
}

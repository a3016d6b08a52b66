//! Lines that do not print what is expected.

/// A line that does not print what is expected.
#[derive(Drop)]
pub struct LineDifference {
    /// The number of the line, from 1; 0 for the first screen.
    pub line: u64,
    /// The text that is expected, with `?` for each wildcard.
    pub expected: Vec<u8>,
    /// Whether each `?` is a wildcard, for each line of the expected text.
    pub wildcards: Vec<bool>,
    /// The text that was printed.
    pub printed: Vec<u8>,
}

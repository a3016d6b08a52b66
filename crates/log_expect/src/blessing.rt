//! Logs with the expectations that they meet.

ghost use Rattle.std.specs.Prelude.{◌≡◌, ◌++◌, ◌∷◌, [], List, ℕ, IfOk, OnOk};
ghost use Rattle.log_expect.specs.Blessings.{KeepsLines, without_expectations};
ghost use Rattle.vt_logs.specs.Lines.{lines_of};

use crate::expectation::{fits, is_expectation, next_line};
use std::alloc::{AllocError, Global};
use vt_logs::{Counts, Progress, ReplayFault};
use vt_server::Terminal;

/// The highest number of lines before a line whose fault is reported.
const MOST_LINES: u64 = 1 << 62;

/// Returns a log with the expectations that it meets, in place of those that it had. Those of a line that are met already stay. It fails
/// if memory is refused or a line has more than 4,096 bytes; then the terminal has processed the lines before it.
pub fn bless(alloc: Global, log: &[u8], terminal: &mut Terminal) -> Result<Blessed, ReplayFault>
    // No other line is changed.
    ensures { IfOk result (λ blessed. without_expectations (lines_of blessed.text.items) ≡ without_expectations (lines_of log.now)) }
{
    let mut progress = Progress::new(alloc);
    let mut printed = Vec::new(alloc);
    let mut blessed = Blessed {
        text: Vec::new(alloc),
        lines: 0,
        inputs: 0,
        faults: 0,
    };
    progress.begin(terminal, &mut printed)?;
    blessed.put_expected(log, &printed)?;
    let mut rest = log;
    while let Some((line, after)) = next_line(rest) {
        if !is_expectation(line) {
            // The line of a fault has the number that it has in the new log. No other count is used.
            progress.counts = Counts {
                lines: blessed.lines.min(MOST_LINES),
                ..Counts::new()
            };
            printed.clear();
            progress.end_line(line, terminal, &mut printed)?;
            blessed.count(&progress.counts);
            blessed.put_line(b"", line)?;
            blessed.put_expected(after, &printed)?;
        }
        rest = after;
    }
    Ok(blessed)
}

/// A log with the expectations that it meets.
#[derive(Drop)]
pub struct Blessed {
    /// The log.
    pub text: Vec<u8>,
    /// The number of lines in the log.
    pub lines: u64,
    /// The number of lines that are frames or actions of the operator.
    pub inputs: u64,
    /// The number of faulty lines. Each is expected to stay faulty.
    pub faults: u64,
}

impl Blessed {
    /// Counts a line by its counts.
    fn count(&mut self, line: &Counts)
        ensures { self.new.text.items ≡ self.old.text.items }
    {
        let inputs = line.frames.saturating_add(line.operator);
        self.inputs = self.inputs.saturating_add(inputs);
        self.faults = self.faults.saturating_add(line.faults);
    }

    /// Appends a line.
    fn put_line(&mut self, front: &[u8], line: &[u8]) -> Result<(), AllocError>
        ensures { OnOk result (self.new.text.items ≡ self.old.text.items ++ front.now ++ line.now ++ 10 ∷ []) }
    {
        self.text.extend_from_slice(front)?;
        self.text.extend_from_slice(line)?;
        self.text.push(b'\n')?;
        self.lines = self.lines.saturating_add(1);
        Ok(())
    }

    /// Appends the expectations at the front of a text as they are, if a printed text fits them, or else new ones for what is printed.
    fn put_expected(&mut self, text: &[u8], printed: &[u8]) -> Result<(), AllocError>
        ensures { OnOk result ((kept : List (List ℕ)) → KeepsLines self.old.text.items kept → KeepsLines self.new.text.items kept) }
    {
        if !fits(text, printed) {
            return self.put_expectations(printed);
        }
        let mut rest = text;
        while let Some((line, after)) = next_line(rest) {
            if !is_expectation(line) {
                break;
            }
            self.put_line(b"", line)?;
            rest = after;
        }
        Ok(())
    }

    /// Appends an expectation for each line of a text.
    fn put_expectations(&mut self, printed: &[u8]) -> Result<(), AllocError>
        ensures { OnOk result ((kept : List (List ℕ)) → KeepsLines self.old.text.items kept → KeepsLines self.new.text.items kept) }
    {
        let mut rest = printed;
        while let Some((line, after)) = next_line(rest) {
            self.put_line(b"#< ", line)?;
            rest = after;
        }
        Ok(())
    }
}

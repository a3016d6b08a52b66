//! Sentences on replays: the line of the log, and the cause of a fault or of a refusal to the operator.

use std::fmt;
use vt_logs::{FaultyLine, Notes, RefusedActions, ReplayFault};
use vt_server::OperatorFault;

/// The sentence on a replay that ended before the end of its log.
#[derive(Drop)]
pub(crate) struct ReplaySentence<'a> {
    pub(crate) why: ReplayFault,
    /// The file of the log.
    pub(crate) log: &'a str,
    /// The number of lines taken.
    pub(crate) lines: u64,
}

impl fmt::Display for ReplaySentence<'_> {
    fn fmt<W: fmt::Write>(&self, f: &mut fmt::Formatter<W>) -> fmt::Result {
        let ReplaySentence { log, lines, .. } = *self;
        match self.why {
            ReplayFault::Read => write!(f, "{log}: the log could not be read")?,
            ReplayFault::Write => write!(f, "{log}: the output could not be written")?,
            ReplayFault::Memory => write!(f, "{log}: the memory for the replay was refused")?,
            ReplayFault::TooLong => return write_long_line(f, log, lines),
        }
        if lines > 0 {
            write!(f, " after line {lines}")?;
        }
        Ok(())
    }
}

/// Writes that the line after `lines` others is too long.
fn write_long_line<W: fmt::Write>(f: &mut fmt::Formatter<W>, log: &str, lines: u64) -> fmt::Result {
    let line = lines.saturating_add(1);
    write!(f, "{log}: line {line} is longer than 4096 bytes")?;
    if lines == 0 {
        write!(f, "; an object pool is checked with --report")?;
    }
    Ok(())
}

/// The sentence on the faulty lines of a log.
#[derive(Drop)]
pub(crate) struct FaultyLines<'a> {
    pub(crate) notes: &'a Notes,
    pub(crate) first: FaultyLine,
}

impl fmt::Display for FaultyLines<'_> {
    fn fmt<W: fmt::Write>(&self, f: &mut fmt::Formatter<W>) -> fmt::Result {
        let Notes { lines, faults, .. } = self.notes;
        let verb = if *faults == 1 { "is" } else { "are" };
        let FaultyLine { line, fault, .. } = self.first;
        write!(
            f,
            "{faults} of {lines} lines {verb} faulty; line {line}: {fault}"
        )
    }
}

/// The sentence on the operator's actions that were refused for one reason.
#[derive(Drop)]
pub(crate) struct RefusedAction<'a> {
    pub(crate) refused: &'a RefusedActions,
}

impl fmt::Display for RefusedAction<'_> {
    fn fmt<W: fmt::Write>(&self, f: &mut fmt::Formatter<W>) -> fmt::Result {
        let RefusedActions { line, fault, count } = self.refused;
        write!(f, "line {line}: the operator's action")?;
        match count.saturating_sub(1) {
            0 => write!(f, " is refused: {fault}")?,
            1 => write!(f, " and 1 later one are refused: {fault}")?,
            more => write!(f, " and {more} later ones are refused: {fault}")?,
        }
        if *fault == OperatorFault::NoSet {
            write!(
                f,
                "; give a pool by --pool or upload one first, or name an address that has one"
            )?;
        }
        Ok(())
    }
}

//! The test of one log.

use crate::entries::Entry;
use crate::outcome::LogOutcome;
use crate::report::{put_differences, put_outcome};
use log_expect::{Blessed, bless, differences};
use log_options::{Format, TerminalOptions};
use log_replay::{LoadedSet, new_terminal, tell_loss, tell_no_frame};
use std::alloc::Global;
use std::io::{self, Error, ErrorKind, Write};
use vt_cli::{Open, Program, Save, overwrite_file, read_file};
use vt_logs::ReplayFault;
use vt_recorded::{LineHint, Survey};
use vt_server::Terminal;

/// The most bytes of a log.
const MOST_BYTES: usize = 1 << 40;

/// How logs are tested.
#[derive(Clone, Copy, Drop)]
pub(crate) struct Bench<'a> {
    pub alloc: Global,
    /// The form of the report.
    pub format: Format,
    /// Whether each log is written anew.
    pub blesses: bool,
    /// The terminal that replays the logs.
    pub terminal: TerminalOptions,
    /// The working sets that it has from the start.
    pub sets: &'a [LoadedSet],
}

impl Bench<'_> {
    /// Tests a log, or writes it anew, and reports what became of it.
    pub(crate) fn run<F: Open + Save, W: Write, E: Write>(
        &self,
        entry: &Entry,
        files: &mut F,
        out: &mut W,
        errors: &mut E,
    ) -> io::Result<LogOutcome> {
        let outcome = self.judge(entry, files, out, errors)?;
        put_outcome(self.alloc, self.format, &entry.path, outcome, out)?;
        Ok(outcome)
    }

    /// Tests a log and reports its differences, or writes it anew.
    fn judge<F: Open + Save, W: Write, E: Write>(
        &self,
        entry: &Entry,
        files: &mut F,
        out: &mut W,
        errors: &mut E,
    ) -> io::Result<LogOutcome> {
        let path = entry.path.as_str();
        if let Some(fault) = &entry.fault {
            let _ = writeln!(errors, "{}: {path}: {fault}", files.name());
            return Ok(LogOutcome::NotJudged);
        }
        match read_file(self.alloc, path, files, errors)? {
            None => Ok(LogOutcome::NotJudged),
            Some(bytes) if self.blesses => self.bless(path, &bytes, files, errors),
            Some(bytes) => self.test(path, &bytes, files, out, errors),
        }
    }

    /// Reports the differences of the log in a file.
    fn test<F: Program, W: Write, E: Write>(
        &self,
        path: &str,
        bytes: &[u8],
        files: &F,
        out: &mut W,
        errors: &mut E,
    ) -> io::Result<LogOutcome> {
        if bytes.len() > MOST_BYTES {
            return not_replayed(path, ReplayFault::TooLong, files, errors);
        }
        let survey = Survey::up_to_input(self.alloc, bytes)?;
        if survey.is_unreadable() {
            tell_no_frame(path, survey.hint, files, errors);
            return Ok(LogOutcome::NotJudged);
        }
        let mut terminal = self.new_terminal()?;
        let differences = match differences(self.alloc, bytes, &mut terminal) {
            Ok(differences) => differences,
            Err(fault) => return not_replayed(path, fault, files, errors),
        };
        put_differences(self.alloc, self.format, path, &differences, out)?;
        self.tell_loss(path, &terminal, files, errors);
        let outcome = LogOutcome::of(&differences);
        if outcome != LogOutcome::Met {
            if let Some(hint) = Survey::of(self.alloc, bytes)?.hint {
                let _ = writeln!(errors, "{}: {path}: {hint}", files.name());
            }
        }
        Ok(outcome)
    }

    /// Writes the log in a file anew, with the expectations that it meets. It stays if it has them already, if it is a file of another
    /// form, if it has neither a frame nor an action of the operator and no working set is there from the start, or if the terminal loses
    /// its address and `--name` does not say that its NAME is the one that is meant.
    fn bless<F: Save, E: Write>(
        &self,
        path: &str,
        bytes: &[u8],
        files: &mut F,
        errors: &mut E,
    ) -> io::Result<LogOutcome> {
        if bytes.len() > MOST_BYTES {
            return not_replayed(path, ReplayFault::TooLong, files, errors);
        }
        let survey = Survey::of(self.alloc, bytes)?;
        if survey.is_unreadable() || survey.hint.and_then(LineHint::form).is_some() {
            tell_no_frame(path, survey.hint, files, errors);
            return Ok(LogOutcome::NotJudged);
        }
        let mut terminal = self.new_terminal()?;
        match bless(self.alloc, bytes, &mut terminal) {
            Ok(blessed) if blessed.inputs == 0 && self.sets.is_empty() => {
                tell_no_frame(path, survey.hint, files, errors);
                Ok(LogOutcome::NotJudged)
            }
            Ok(blessed) => {
                let is_lost = self.tell_loss(path, &terminal, files, errors);
                if is_lost && self.terminal.name.is_none() {
                    return Ok(LogOutcome::NotJudged);
                }
                write_blessed(path, bytes, &blessed, files, errors)
            }
            Err(fault) => not_replayed(path, fault, files, errors),
        }
    }

    /// Writes to `errors` that the terminal lost its address, if it did. Returns whether it did.
    fn tell_loss<F: Program, E: Write>(
        &self,
        path: &str,
        terminal: &Terminal,
        files: &F,
        errors: &mut E,
    ) -> bool {
        tell_loss(path, self.terminal.own, terminal, files, errors)
    }

    /// A terminal before its first input.
    fn new_terminal(&self) -> io::Result<Terminal> {
        new_terminal(self.alloc, self.terminal, None, self.sets)
    }
}

/// Writes a blessed log in place of the log, unless they are the same. Writes to `errors` how many lines are faulty.
fn write_blessed<F: Save, E: Write>(
    path: &str,
    log: &[u8],
    blessed: &Blessed,
    files: &mut F,
    errors: &mut E,
) -> io::Result<LogOutcome> {
    let faults = blessed.faults;
    if faults > 0 {
        let verb = if faults == 1 { "is" } else { "are" };
        let _ = writeln!(
            errors,
            "{}: {path}: {faults} of its lines {verb} faulty; trace shows each with its fault",
            files.name()
        );
    }
    if blessed.text.as_slice() == log {
        return Ok(LogOutcome::Same);
    }
    if !overwrite_file(path, &blessed.text, files, errors)? {
        return Ok(LogOutcome::NotJudged);
    }
    Ok(LogOutcome::Written)
}

/// Writes to `errors` why a log could not be replayed.
fn not_replayed<F: Program, E: Write>(
    path: &str,
    fault: ReplayFault,
    files: &F,
    errors: &mut E,
) -> io::Result<LogOutcome> {
    if fault == ReplayFault::Memory {
        return Err(Error::from(ErrorKind::OutOfMemory));
    }
    let _ = writeln!(errors, "{}: {path}: {fault}", files.name());
    Ok(LogOutcome::NotJudged)
}

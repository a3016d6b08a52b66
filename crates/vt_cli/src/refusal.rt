//! Refusals of command lines.

ghost use Rattle.std.specs.Prelude.{IsTrue, ◌↔◌};
ghost use Rattle.vt_cli.specs.Refusals.{AsksForHelp};

use crate::status::Status;
use clap::error::ErrorKind;
use std::alloc::AllocError;
use std::fmt;
use std::io::{self, Write};

/// A refusal of a command line, or a request for help or the version. `W` are the wrong options of the program.
#[derive(Drop)]
pub enum UsageError<W> {
    /// An error of `clap`: a fault of the command line, or a request for help or the version.
    Words(clap::Error),
    /// A wrong option.
    Wrong(W),
    /// There is no subcommand. The text names those that there are.
    NoSubcommand(&'static str),
    /// More than one of the files is the standard input.
    InputTwice,
    /// An allocation was refused.
    Memory,
}

impl<W> UsageError<W> {
    /// Whether it is a request for help or the version.
    pub fn is_help(&self) -> bool
        ensures { IsTrue result ↔ AsksForHelp self.now }
    {
        match self {
            UsageError::Words(error) => !error.use_stderr(),
            UsageError::Wrong(_)
            | UsageError::NoSubcommand(_)
            | UsageError::InputTwice
            | UsageError::Memory => false,
        }
    }
}

impl<W: fmt::Display> fmt::Display for UsageError<W> {
    fn fmt<F: fmt::Write>(&self, f: &mut fmt::Formatter<F>) -> fmt::Result {
        match self {
            UsageError::Words(error) => write!(f, "{error}"),
            UsageError::Wrong(option) => writeln!(f, "error: {option}"),
            UsageError::NoSubcommand(subcommands) => {
                writeln!(f, "error: expected a subcommand: {subcommands}")
            }
            UsageError::InputTwice => writeln!(
                f,
                "error: - is given more than once, but the standard input can be read once; give the other files by their paths"
            ),
            UsageError::Memory => writeln!(f, "error: out of memory"),
        }
    }
}

impl<W> From<clap::Error> for UsageError<W> {
    fn from(error: clap::Error) -> Self {
        match error.kind() {
            ErrorKind::OutOfMemory => UsageError::Memory,
            _ => UsageError::Words(error),
        }
    }
}

impl<W> From<AllocError> for UsageError<W> {
    fn from(_error: AllocError) -> Self {
        UsageError::Memory
    }
}

/// Writes help or the version to `out`, or a refusal to `errors`, and returns the status of the run. An error is returned if `out` cannot
/// be written or memory was refused.
pub fn refuse<W: fmt::Display, O: Write, E: Write>(
    refusal: &UsageError<W>,
    out: &mut O,
    errors: &mut E,
) -> io::Result<Status> {
    if refusal.is_help() {
        write!(out, "{refusal}")?;
        out.flush()?;
        return Ok(Status::Clean);
    }
    if matches!(refusal, UsageError::Memory) {
        return Err(io::Error::from(io::ErrorKind::OutOfMemory));
    }
    let _ = write!(errors, "{refusal}");
    Ok(Status::NotJudged)
}

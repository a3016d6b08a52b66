//! The process of a program: the arguments of its command line, and its exit status.

use crate::status::Status;
use std::fmt;
use std::io::{self, Error, ErrorKind, Write};
use std::process::ExitCode;

/// The arguments of the command line, of which the first is the program's name. `None` if one of them is not UTF-8: then the error output
/// receives a sentence that says so.
pub fn arguments_of(rt: &HostRuntime, program: &str) -> io::Result<Option<Vec<String>>> {
    match std::env::args(rt) {
        Ok(arguments) => Ok(Some(arguments.collect(rt.alloc())?)),
        Err(error) if error.kind() == ErrorKind::InvalidData => {
            let _ = writeln!(
                rt.stderr(),
                "{program}: a word of the command line is not UTF-8; a file with such a name can be renamed, or read as -, the standard input"
            );
            Ok(None)
        }
        Err(error) => Err(error),
    }
}

/// The exit status of a run. If the run ended early, the error output receives the cause.
pub fn exit_code(rt: &HostRuntime, program: &str, run: io::Result<Status>) -> ExitCode {
    let status = match run {
        Ok(status) => status,
        // Whoever reads the output has seen enough of it, such as head.
        Err(error) if error.kind() == ErrorKind::BrokenPipe => Status::NotJudged,
        Err(error) => {
            let _ = writeln!(rt.stderr(), "{program}: {}", Cause { error: &error });
            Status::NotJudged
        }
    };
    ExitCode::from(status.code())
}

/// Why a run ended early. It tells of files that cannot be read by itself, so the cause is memory or the output.
#[derive(Clone, Copy, Drop)]
struct Cause<'a> {
    error: &'a Error,
}

impl fmt::Display for Cause<'_> {
    fn fmt<W: fmt::Write>(&self, f: &mut fmt::Formatter<W>) -> fmt::Result {
        match self.error.kind() {
            ErrorKind::OutOfMemory => write!(f, "out of memory"),
            _ => write!(f, "the output could not be written: {}", self.error),
        }
    }
}

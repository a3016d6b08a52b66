//! Replays a CAN log to a virtual terminal and prints the terminal's answers, or prints the report of an object pool.
//!
//! docs/PROFILE.md, "The program", has the words, the statuses and the output.
#![tactic(auto)]

use std::io::{self, BufWriter, ErrorKind, Write};
use std::process::ExitCode;
use vt_logs::Stream;
use vt_program::{Files, Status, run};

fn main(rt: HostRuntime) -> io::Result<ExitCode> {
    let alloc = rt.alloc();
    let mut errors = rt.stderr();
    let words: Vec<String> = match std::env::args(&rt) {
        Ok(words) => words.collect(alloc)?,
        Err(error) if error.kind() == ErrorKind::InvalidData => {
            let _ = writeln!(errors, "error: a word is not UTF-8");
            return Ok(ExitCode::from(Status::Usage.code()));
        }
        Err(error) => return Err(error),
    };
    let mut out = Stream::new(BufWriter::new(alloc, io::writer(&rt))?);
    let mut files = Files::new(&rt, "vt_replay");
    match run(alloc, words.as_slice(), &mut files, &mut out, &mut errors) {
        Ok(status) => Ok(ExitCode::from(status.code())),
        Err(error) => {
            let Some(cause) = out.failure() else {
                return Err(error);
            };
            let _ = writeln!(
                errors,
                "vt_replay: the output could not be written: {cause}"
            );
            Ok(ExitCode::from(Status::Fault.code()))
        }
    }
}

//! Explains recorded logs: lines in words, pools, statistics, comparison and tests.
//!
//! docs/LOGS.md has the command lines and the statuses.
#![tactic(auto)]

mod console;

use console::Console;
use log_tool::run;
use std::io::{self, BufWriter};
use std::process::ExitCode;
use vt_cli::{Files, Status, arguments_of, exit_code};

/// The name of the program.
const NAME: &str = "segyolant_log";

fn main(rt: HostRuntime) -> ExitCode {
    let run = run_words(&rt);
    exit_code(&rt, NAME, run)
}

/// Runs the program on the arguments of the command line, with the streams of the system.
fn run_words(rt: &HostRuntime) -> io::Result<Status> {
    let Some(arguments) = arguments_of(rt, NAME)? else {
        return Ok(Status::NotJudged);
    };
    let alloc = rt.alloc();
    let mut files = Files::new(rt, NAME);
    let mut out = BufWriter::new(alloc, io::writer(rt))?;
    let mut errors = Console::new(rt);
    let status = run(
        alloc,
        arguments.as_slice(),
        &mut files,
        &mut out,
        &mut errors,
    );
    errors.end_progress();
    status
}

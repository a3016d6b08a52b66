//! Checks object pools: every fault at once, with its place and its cause.
//!
//! docs/POOLS.md, "Every fault at once", has the command lines, the statuses and the codes.
#![tactic(auto)]

use check_tool::{MessageStyle, run};
use std::io::{self, BufWriter, IsTerminal};
use std::process::ExitCode;
use vt_cli::{Files, Status, arguments_of, exit_code};

/// The name of the program.
const NAME: &str = "segyolant";

fn main(rt: HostRuntime) -> ExitCode {
    let run = run_words(&rt);
    exit_code(&rt, NAME, run)
}

/// Runs the program on the arguments of the command line, with the streams of the system.
fn run_words(rt: &HostRuntime) -> io::Result<Status> {
    let Some(arguments) = arguments_of(rt, NAME)? else {
        return Ok(Status::NotJudged);
    };
    let alloc = rt.alloc();
    let arguments = arguments.as_slice();
    let mut files = Files::new(rt, NAME);
    let mut out = BufWriter::new(alloc, io::writer(rt))?;
    let mut errors = rt.stderr();
    run(
        alloc,
        arguments,
        style_of(rt),
        &mut files,
        &mut out,
        &mut errors,
    )
}

/// In colours if the standard output is a terminal.
fn style_of(rt: &HostRuntime) -> MessageStyle {
    if rt.stdout().is_terminal() {
        MessageStyle::Coloured
    } else {
        MessageStyle::Plain
    }
}

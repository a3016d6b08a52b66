//! Serves a terminal by lines of JSON: reads requests from the standard input, and writes outputs and answers to the standard output.
//!
//! docs/LIVE.md has the requests and the answers.
#![tactic(auto)]

ghost use Rattle.std.specs.Prelude.{◌≡◌, []};
ghost use Rattle.vt_session.specs.Sessions.{waiting};

use std::fmt;
use std::io::{self, BufRead, BufWriter, Error, ErrorKind, Input, Write};
use std::process::ExitCode;
use vt_service::{new_session, serve};
use vt_session::Session;

const HELP: &str =
    "An ISOBUS virtual terminal for programs: each line of the standard input is a request, in JSON, and is answered on the standard output.

Usage: vt_live [--help | --version]

A request that asks for the screen is {\"id\": 1, \"do\": \"screen\"}. docs/LIVE.md lists all requests and answers.
";

const VERSION: &str = "vt_live 0.2.0\n";

fn main(rt: HostRuntime) -> io::Result<ExitCode> {
    let code = match run_words(&rt) {
        Ok(code) => code,
        Err(error) => {
            let _ = writeln!(rt.stderr(), "vt_live: {}", Cause { error: &error });
            1
        }
    };
    Ok(ExitCode::from(code))
}

/// Runs the program on the arguments of the command line, and returns its status.
fn run_words(rt: &HostRuntime) -> io::Result<u8> {
    let alloc = rt.alloc();
    let words: Vec<String> = match std::env::args(rt) {
        Ok(words) => words.collect(alloc)?,
        Err(error) if error.kind() == ErrorKind::InvalidData => {
            writeln!(
                rt.stderr(),
                "vt_live: a word of the command line is not UTF-8; requests come on the standard input, and --help tells more"
            )?;
            return Ok(2);
        }
        Err(error) => return Err(error),
    };
    let mut out = BufWriter::new(alloc, io::writer(rt))?;
    let Some(word) = words.get(1) else {
        serve_input(rt, &mut out)?;
        return Ok(0);
    };
    let text = match word.as_str() {
        "--help" => HELP,
        "--version" => VERSION,
        _ => return refuse(rt, word),
    };
    if let Some(word) = words.get(2) {
        return refuse(rt, word);
    }
    out.write_all(text.as_bytes())?;
    out.flush()?;
    Ok(0)
}

/// Refuses a word of the command line.
fn refuse(rt: &HostRuntime, word: &str) -> io::Result<u8> {
    writeln!(
        rt.stderr(),
        "vt_live: the word {word} is not expected; requests come on the standard input, and --help tells more"
    )?;
    Ok(2)
}

/// Serves the lines of the standard input with a new session.
fn serve_input<W: Write>(rt: &HostRuntime, out: &mut W) -> io::Result<()> {
    let mut session = new_session(rt.alloc());
    serve_lines(rt, &mut session, out)
}

/// Serves each line of the standard input, and writes the lines of its answer at once.
fn serve_lines<W: Write>(rt: &HostRuntime, session: &mut Session, out: &mut W) -> io::Result<()>
    requires { waiting session.old ≡ [] }
{
    let alloc = rt.alloc();
    for line in rt.stdin().reader().split(alloc, b'\n') {
        let mut answer: Vec<String> = Vec::new(alloc);
        serve(session, &line?, &mut answer)?;
        write_lines(&answer, out)?;
    }
    Ok(())
}

/// Writes lines at once.
fn write_lines<W: Write>(lines: &[String], out: &mut W) -> io::Result<()> {
    for line in lines {
        writeln!(out, "{line}")?;
    }
    out.flush()
}

/// Why the program ends early.
#[derive(Clone, Copy, Drop)]
struct Cause<'a> {
    error: &'a Error,
}

impl fmt::Display for Cause<'_> {
    fn fmt<W: fmt::Write>(&self, f: &mut fmt::Formatter<W>) -> fmt::Result {
        match self.error.kind() {
            ErrorKind::OutOfMemory => write!(
                f,
                "out of memory; the terminal is gone, and its implements upload their pools again to a new one"
            ),
            _ => write!(
                f,
                "the standard input could not be read, or the standard output not be written: {}",
                self.error
            ),
        }
    }
}

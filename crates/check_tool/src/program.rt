//! A run of the program, from its command line to its status.

use crate::check::run_check;
use check_diff::run_diff;
use check_options::Options;
use check_page::run_report;
use check_reports::{run_needs, run_rule, run_why};
use check_text::MessageStyle;
use draw_gallery::{Outcome, run_draw};
use std::alloc::Global;
use std::convert::AsStr;
use std::io::{self, Write};
use vt_cli::{Open, Save, Status, refuse};

/// Runs the program on the arguments of its command line, of which the first is its name. `errors` receives a sentence for a wrong command
/// line, for each file that cannot be read or written, and for a pool that the subcommand cannot judge or draw. An error is returned if
/// `out` cannot be written or memory is refused.
pub fn run<S: AsStr, F: Open + Save, W: Write, E: Write>(
    alloc: Global,
    arguments: &[S],
    style: MessageStyle,
    files: &mut F,
    out: &mut W,
    errors: &mut E,
) -> io::Result<Status> {
    let options = match Options::parse(alloc, arguments) {
        Ok(options) => options,
        Err(refusal) => return refuse(&refusal, out, errors),
    };
    let status = match &options {
        Options::Check(options) => run_check(alloc, options, style, files, out, errors)?,
        Options::Rule(word) => run_rule(alloc, *word, out, errors)?,
        Options::Why(options) => run_why(alloc, options, style, files, out, errors)?,
        Options::Needs(options) => run_needs(alloc, options, files, out, errors)?,
        Options::Diff(options) => run_diff(alloc, options, files, out, errors)?,
        Options::Report(options) => run_report(alloc, options, files, out, errors)?,
        Options::Draw(options) => status_of(run_draw(alloc, options, files, out, errors)?),
    };
    out.flush()?;
    Ok(status)
}

/// The status of a run of `draw`.
fn status_of(outcome: Outcome) -> Status {
    match outcome {
        Outcome::Clean => Status::Clean,
        Outcome::Faulty => Status::Found,
        Outcome::NotDrawn => Status::NotJudged,
    }
}

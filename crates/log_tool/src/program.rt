//! A run of the program, from its command line to its status.

use crate::operator::run_operator;
use log_bench::run_test;
use log_compare::run_compare;
use log_options::Options;
use log_page::run_report;
use log_pools::run_pools;
use log_replay::Messages;
use log_runs::{run_draw, run_trace};
use log_stats::run_stats;
use std::alloc::Global;
use std::convert::AsStr;
use std::io::{self, Write};
use vt_cli::{List, Open, Save, Status, refuse};

/// Runs the program on the arguments of its command line, of which the first is its name. `errors` receives a sentence for a wrong
/// command line and for each file that cannot be read or written. An error is returned if `out` cannot be written or memory is refused.
pub fn run<S: AsStr, F: Open + Save + List, W: Write, E: Messages>(
    alloc: Global,
    arguments: &[S],
    files: &mut F,
    out: &mut W,
    errors: &mut E,
) -> io::Result<Status> {
    let options = match Options::parse(alloc, arguments) {
        Ok(options) => options,
        Err(refusal) => return refuse(&refusal, out, errors),
    };
    let status = run_subcommand(alloc, &options, files, out, errors)?;
    out.flush()?;
    Ok(status)
}

/// Runs the subcommand of the options, and returns its status. An error is returned if `out` cannot be written or memory is refused.
fn run_subcommand<F: Open + Save + List, W: Write, E: Messages>(
    alloc: Global,
    options: &Options<'_>,
    files: &mut F,
    out: &mut W,
    errors: &mut E,
) -> io::Result<Status> {
    match options {
        Options::Pools(options) => run_pools(alloc, options, files, out, errors),
        Options::Operator(options) => run_operator(alloc, *options, files, out, errors),
        Options::Trace(options) => run_trace(alloc, options, files, out, errors),
        Options::Compare(options) => run_compare(alloc, options, files, out, errors),
        Options::Draw(options) => run_draw(alloc, options, files, out, errors),
        Options::Stats(options) => run_stats(alloc, options, files, out, errors),
        Options::Report(options) => run_report(alloc, options, files, out, errors),
        Options::Test(options) => run_test(alloc, options, files, out, errors),
    }
}

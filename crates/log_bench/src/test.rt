//! The subcommand `test`.

use crate::bench::Bench;
use crate::entries::{Entry, entries_at};
use crate::junit::JUnit;
use log_options::{Format, TestFormat, TestOptions};
use log_replay::read_sets;
use std::alloc::Global;
use std::io::{self, Write};
use vt_cli::{List, Open, Save, Status};

/// Tests each log in turn, or writes each anew; of a folder, each log in it. A log that cannot be read or replayed is reported, and the
/// other logs are still tested. The status is the worst of the logs. An error is returned if `out` cannot be written or memory is
/// refused.
pub fn run_test<F: Open + Save + List, W: Write, E: Write>(
    alloc: Global,
    options: &TestOptions<'_>,
    files: &mut F,
    out: &mut W,
    errors: &mut E,
) -> io::Result<Status> {
    let own = options.terminal.own;
    let Some(sets) = read_sets(alloc, &options.start, own, files, errors)? else {
        return Ok(Status::NotJudged);
    };
    let bench = Bench {
        alloc,
        format: match options.format {
            TestFormat::Json => Format::Json,
            TestFormat::Text | TestFormat::JUnit => Format::Text,
        },
        blesses: options.blesses,
        terminal: options.terminal,
        sets: sets.as_slice(),
    };
    let entries = entries_at(alloc, &options.logs, files)?;
    match options.format {
        TestFormat::JUnit => run_junit(&bench, &entries, files, out, errors),
        TestFormat::Text | TestFormat::Json => run_each(&bench, &entries, files, out, errors),
    }
}

/// Reports each log when it is judged.
fn run_each<F: Open + Save, W: Write, E: Write>(
    bench: &Bench<'_>,
    entries: &[Entry],
    files: &mut F,
    out: &mut W,
    errors: &mut E,
) -> io::Result<Status> {
    let mut status = Status::Clean;
    for entry in entries {
        status = status.and(bench.run(entry, files, out, errors)?.status());
    }
    Ok(status)
}

/// Writes a report of all logs in the XML of JUnit.
fn run_junit<F: Open + Save, W: Write, E: Write>(
    bench: &Bench<'_>,
    entries: &[Entry],
    files: &mut F,
    out: &mut W,
    errors: &mut E,
) -> io::Result<Status> {
    let mut status = Status::Clean;
    let mut report = JUnit::new(bench.alloc);
    for entry in entries {
        status = status.and(report.take(bench, entry, files, errors)?);
    }
    report.write(out)?;
    Ok(status)
}

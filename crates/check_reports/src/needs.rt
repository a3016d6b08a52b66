//! The subcommand `needs`.

mod font_uses;
mod json;
mod lines;
mod load;
mod report;

use crate::needs::json::write_report_json;
use crate::needs::lines::write_report;
use crate::needs::load::Load;
use crate::needs::report::Report;
use check_needs::{Sizes, lacks};
use check_options::{LineFormat, NeedsOptions};
use check_text::{CheckedPool, is_read};
use std::alloc::Global;
use std::io::{self, Write};
use vt_cli::{InspectedFile, Open, Status, read_names};

/// Prints what a pool needs and which objects need it, and whether the terminal has it, which is not judged for a refused pool.
/// `errors` receives a sentence for each file that cannot be read, and for such a pool. An error is returned if `out` cannot be written or
/// memory is refused.
pub fn run_needs<F: Open, W: Write, E: Write>(
    alloc: Global,
    options: &NeedsOptions<'_>,
    files: &mut F,
    out: &mut W,
    errors: &mut E,
) -> io::Result<Status> {
    let Some(names) = read_names(alloc, options.names.as_slice(), files, errors)? else {
        return Ok(Status::NotJudged);
    };
    let Some(pool) = InspectedFile::read(alloc, options.pool, files, errors)? else {
        return Ok(Status::NotJudged);
    };
    let source = pool.named(&names);
    let report = Report::new(alloc, source)?;
    match options.format {
        LineFormat::Text => write_report(&report, options.sizes, out)?,
        LineFormat::Json => write_report_json(alloc, &report, options.sizes, out)?,
    }
    let cause = match report.load {
        Load::Known { .. } if lacks(&report.needs, options.sizes).is_empty() => {
            return Ok(Status::Clean);
        }
        Load::Known { .. } => return Ok(Status::Found),
        Load::Unread => {
            is_read(source.inspection, options.pool, errors);
            return Ok(Status::NotJudged);
        }
        Load::Faulty => "a record of the pool has a fault",
        Load::Refused => "the pool is refused",
    };
    let _ = writeln!(
        errors,
        "segyolant: {}: {cause}, so its chains and events are not judged, nor whether it fits; segyolant check says why",
        options.pool
    );
    Ok(Status::NotJudged)
}

/// Writes what a pool needs as a line of JSON.
pub fn put_needs<W: Write>(
    alloc: Global,
    source: CheckedPool<'_>,
    sizes: Sizes,
    out: &mut W,
) -> io::Result<()> {
    let report = Report::new(alloc, source)?;
    write_report_json(alloc, &report, sizes, out)
}

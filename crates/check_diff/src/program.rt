//! The subcommand `diff`.

use crate::comparison::differences;
use crate::json::write_difference_json;
use crate::lines::write_difference;
use crate::sides::Sides;
use check_inspect::Finding;
use check_options::{DiffOptions, LineFormat};
use check_text::is_whole;
use std::alloc::Global;
use std::io::{self, Write};
use vt_cli::{InspectedFile, Open, Status, read_names};
use vt_pool::PoolFault;

/// Prints the differences of two pools, up to the first bytes that cannot be read. `errors` receives a sentence for each file that cannot
/// be read, and for each pool with a value that is not that of its bytes: then the status is `NotJudged`. An error is returned if `out`
/// cannot be written or memory is refused.
pub fn run_diff<F: Open, W: Write, E: Write>(
    alloc: Global,
    options: &DiffOptions<'_>,
    files: &mut F,
    out: &mut W,
    errors: &mut E,
) -> io::Result<Status> {
    let Some(names) = read_names(alloc, options.names.as_slice(), files, errors)? else {
        return Ok(Status::NotJudged);
    };
    let Some(old) = InspectedFile::read(alloc, options.old, files, errors)? else {
        return Ok(Status::NotJudged);
    };
    let Some(new) = InspectedFile::read(alloc, options.new, files, errors)? else {
        return Ok(Status::NotJudged);
    };
    let is_judged = is_exact(&old, errors) & is_exact(&new, errors);
    let sides = Sides {
        old: old.named(&names),
        new: new.named(&names),
    };
    let is_different = write_differences(alloc, &sides, options.format, out)?;
    if !is_judged {
        return Ok(Status::NotJudged);
    }
    Ok(if is_different {
        Status::Found
    } else {
        Status::Clean
    })
}

/// Writes the differences of two pools, and returns whether there are any.
fn write_differences<W: Write>(
    alloc: Global,
    sides: &Sides<'_>,
    format: LineFormat,
    out: &mut W,
) -> io::Result<bool> {
    let found = differences(
        alloc,
        &sides.old.inspection.objects,
        &sides.new.inspection.objects,
    )?;
    for difference in found.iter() {
        match format {
            LineFormat::Text => write_difference(alloc, sides, *difference, out)?,
            LineFormat::Json => write_difference_json(alloc, sides, *difference, out)?,
        }
    }
    Ok(!found.is_empty())
}

/// Whether each value that was read from a pool is that of its bytes. If not, `errors` receives the reason.
fn is_exact<E: Write>(pool: &InspectedFile<'_>, errors: &mut E) -> bool {
    let InspectedFile {
        path,
        inspection,
        ..
    } = pool;
    if !is_whole(inspection, path, errors) {
        return false;
    }
    let is_mended = inspection.findings.iter().any(is_of_number);
    if is_mended {
        let _ = writeln!(
            errors,
            "segyolant: {path}: a wrong scale is compared as 1, and wrong decimals as 7; segyolant check says where"
        );
    }
    !is_mended
}

/// Whether a finding is a wrong scale or wrong decimals.
fn is_of_number(finding: &Finding) -> bool {
    matches!(
        finding,
        Finding::Record(PoolFault::Scale { .. } | PoolFault::Decimals { .. })
    )
}

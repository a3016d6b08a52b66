//! The counts of a pool's errors and warnings.

ghost use Rattle.std.specs.Prelude.{◌≡◌, ◌-◌, length};
ghost use Rattle.std.specs.FinMap as finite;
ghost use Rattle.vt_stores.specs.Stores.{map_of};
ghost use Rattle.check_text.specs.Severities.{errors_among, is_error, severity_of};

use crate::checked_pool::CheckedPool;
use crate::item::Item;
use crate::message::{Severity, severity_of};
use std::fmt;
use vt_objects::Store;

/// The counts of a pool's messages. `Display` writes them in a line, without a newline.
#[derive(Clone, Copy, Drop)]
pub struct Summary<'a> {
    /// The path of the pool's file.
    pub file: &'a str,
    /// The number of errors.
    pub errors: usize,
    /// The number of warnings.
    pub warnings: usize,
    /// The number of objects in force.
    pub objects: usize,
    /// The number of errors and warnings that have no line.
    pub left_out: usize,
}

/// The counts of a pool's objects, and of its errors and warnings, which are `items`. At most `most` of these have lines.
pub fn summary_of<'a>(source: &CheckedPool<'a>, items: &[Item<'_>], most: usize) -> Summary<'a>
    ensures file { result.file.now ≡ source.now.path.now }
    ensures errors { result.errors ≡ errors_among items.now }
    ensures warnings { result.warnings ≡ length items.now - errors_among items.now }
    ensures objects { result.objects ≡ finite.len (map_of source.now.inspection.now.objects) }
    ensures left_out { result.left_out ≡ length items.now - most }
{
    let errors = count_errors(items);
    Summary {
        file: source.path,
        errors,
        warnings: items.len().saturating_sub(errors),
        objects: source.inspection.objects.count(),
        left_out: items.len().saturating_sub(most),
    }
}

/// How many of these items are errors.
fn count_errors(items: &[Item<'_>]) -> usize
    ensures { result ≡ errors_among items.now }
{
    let mut errors = 0usize;
    for item in items {
        if is_error(*item) {
            errors += 1;
        }
    }
    errors
}

/// Whether an item is an error.
fn is_error(item: Item<'_>) -> bool
    ensures { result ≡ is_error (severity_of item.entry) }
{
    matches!(severity_of(item), Severity::Error)
}

impl fmt::Display for Summary<'_> {
    fn fmt<W: fmt::Write>(&self, f: &mut fmt::Formatter<W>) -> fmt::Result {
        let Summary {
            file,
            errors,
            warnings,
            objects,
            left_out,
        } = *self;
        write!(f, "{file}: ")?;
        write_count(f, errors, "error")?;
        f.write_str(", ")?;
        write_count(f, warnings, "warning")?;
        f.write_str(", ")?;
        write_count(f, objects, "object")?;
        if left_out > 0 {
            write!(f, "; {left_out} not shown")?;
        }
        Ok(())
    }
}

/// Writes a count with its noun, which takes an s unless the count is 1.
pub(crate) fn write_count<W: fmt::Write>(
    f: &mut fmt::Formatter<W>,
    count: usize,
    noun: &str,
) -> fmt::Result {
    let ending = if count == 1 { "" } else { "s" };
    write!(f, "{count} {noun}{ending}")
}

//! The counts of several pools.

ghost use Rattle.std.specs.Prelude.{◌≡◌, ◌+◌, ◌-◌, ◌^◌, min};

use crate::summary::{Summary, write_count};
use std::fmt;

/// The counts of several pools. `Display` writes them in a line, without a newline.
#[derive(Clone, Copy, Drop)]
pub struct Totals {
    /// The number of pools.
    pub files: usize,
    /// The number of errors.
    pub errors: usize,
    /// The number of warnings.
    pub warnings: usize,
    /// The number of objects in force.
    pub objects: usize,
}

impl Totals {
    /// The counts of no pools.
    pub fn new() -> Totals
        ensures files { result.files ≡ 0 }
        ensures errors { result.errors ≡ 0 }
        ensures warnings { result.warnings ≡ 0 }
        ensures objects { result.objects ≡ 0 }
    {
        Totals {
            files: 0,
            errors: 0,
            warnings: 0,
            objects: 0,
        }
    }

    /// Adds the counts of a pool. A sum that does not fit stays at the greatest number.
    pub fn add(&mut self, summary: &Summary<'_>)
        ensures files { self.new.files ≡ min (self.old.files + 1) (2 ^ 64 - 1) }
        ensures errors { self.new.errors ≡ min (self.old.errors + summary.now.errors) (2 ^ 64 - 1) }
        ensures warnings { self.new.warnings ≡ min (self.old.warnings + summary.now.warnings) (2 ^ 64 - 1) }
        ensures objects { self.new.objects ≡ min (self.old.objects + summary.now.objects) (2 ^ 64 - 1) }
    {
        self.files = self.files.saturating_add(1);
        self.errors = self.errors.saturating_add(summary.errors);
        self.warnings = self.warnings.saturating_add(summary.warnings);
        self.objects = self.objects.saturating_add(summary.objects);
    }
}

impl fmt::Display for Totals {
    fn fmt<W: fmt::Write>(&self, f: &mut fmt::Formatter<W>) -> fmt::Result {
        write_count(f, self.files, "file")?;
        f.write_str(": ")?;
        write_count(f, self.errors, "error")?;
        f.write_str(", ")?;
        write_count(f, self.warnings, "warning")?;
        f.write_str(", ")?;
        write_count(f, self.objects, "object")
    }
}

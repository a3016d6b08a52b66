//! What a line is about.

use check_inspect::{Finding, Note, ReplacedRecord};
use check_needs::Warning;
use check_values::ValueWarning;

/// A finding, a warning or a note about a pool.
#[derive(Clone, Copy, Drop)]
pub enum Item<'a> {
    /// A fault of a record, or a rule that is broken.
    Finding(&'a Finding),
    /// A record that a later one of another kind replaces.
    Clash(&'a ReplacedRecord),
    /// A record that a later one of its kind replaces.
    Replaced(&'a ReplacedRecord),
    /// A warning about an object.
    Warning(&'a Warning),
    /// A warning about a value of an object.
    Value(&'a ValueWarning),
    /// Rules that were not judged.
    Note(Note),
}

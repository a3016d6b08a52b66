//! Theorems about the changes of a screen. Each is the contract of a function without effect.

ghost use Rattle.log_trace.specs.Changes.{ChangesAreOne, OneReplacedLine, SameLinesHaveNone};

/// The changes from one screen to another are unique.
pub fn changes_are_one()
    ensures { ChangesAreOne }
{}

/// There are no changes if the lines of both screens are the same, and only then.
pub fn same_lines_have_none()
    ensures { SameLinesHaveNone }
{}

/// If one line is replaced, the changes are the old line and the new one in its place.
pub fn one_replaced_line()
    ensures { OneReplacedLine }
{}

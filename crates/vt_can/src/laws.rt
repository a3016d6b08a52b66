//! Theorems about identifiers, lines and sessions. Each is the contract of a function without effect.

ghost use Rattle.std.specs.Prelude.{ℕ};
ghost use Rattle.vt_can.specs.frames.Identifier.{PartsAreIdentifiers};
ghost use Rattle.vt_can.specs.lines.Line.{HasReading, ReadingsAreOne};
ghost use Rattle.vt_can.specs.lines.WrittenForms.{WrittenLinesAreRead};
ghost use Rattle.vt_can.specs.transport.Sessions.{ByAddress, IsRemoved, TheFirstExpires};

use crate::parse_line;

/// The six numbers of an identifier and the identifier determine each other.
pub fn parts_are_identifiers()
    ensures { PartsAreIdentifiers }
{}

/// Every line has a reading: the result of `parse_line`.
pub fn lines_have_readings(line: &[u8])
    ensures { HasReading line.now }
{
    let _ = parse_line(line);
}

/// The reading of a line is unique.
pub fn readings_are_one()
    ensures { ReadingsAreOne }
{}

/// The line written for a frame and its time reads back as both.
pub fn written_lines_are_read()
    ensures { WrittenLinesAreRead }
{}

/// `Sessions::expire` removes the first overdue session by address and keeps the others. It removes none only if none is
/// overdue.
pub fn the_first_overdue_expires<T, X>()
    ensures { TheFirstExpires T X }
{}

/// After the removal of an address's session the address has none, the others are unchanged, and there is one fewer.
pub fn sessions_are_removed<T>()
    ensures { (sessions : ByAddress T) (address : ℕ) → IsRemoved sessions address }
{}

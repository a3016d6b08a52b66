//! The parts of lines: steps, events, macros and commands.

ghost use Rattle.std.specs.Prelude.{◌≡◌, nat_lt};
ghost use Rattle.vt_chains.specs.Limits.{terminal};

use check_costs::{Breakdown, EventCost, MOST_STEPS};
use check_text::{CheckedPool, event_name};
use std::io::{self, Write};
use vt_objects::ObjectId;
use vt_verify::TERMINAL_LIMITS;

/// Whether so many steps are more than an event or a macro of an accepted pool can take.
pub(crate) fn is_over(steps: u64) -> bool
    ensures { result ≡ nat_lt terminal.steps steps }
{
    steps > u64::from(TERMINAL_LIMITS.steps)
}

/// Writes a number of steps, to the right of its column.
pub(crate) fn write_steps<W: Write>(steps: u64, out: &mut W) -> io::Result<()> {
    write!(out, "{steps:>13} ")
}

/// Ends a line, with a remark if its steps are too many.
pub(crate) fn end_line<W: Write>(steps: u64, out: &mut W) -> io::Result<()> {
    if !is_over(steps) {
        return writeln!(out);
    }
    let limit = TERMINAL_LIMITS.steps;
    if steps == MOST_STEPS {
        return writeln!(out, " (or more; at most {limit} are allowed)");
    }
    writeln!(out, " (at most {limit} are allowed)")
}

/// Writes an event of an object.
pub(crate) fn write_event<W: Write>(
    source: &CheckedPool<'_>,
    id: ObjectId,
    event: u8,
    out: &mut W,
) -> io::Result<()> {
    write!(out, "{}, {}", source.label(id), event_name(event))
}

/// Writes a macro.
pub(crate) fn write_macro<W: Write>(
    source: &CheckedPool<'_>,
    id: u8,
    out: &mut W,
) -> io::Result<()> {
    write!(out, "{}", source.label(ObjectId::from_raw(u16::from(id))))
}

/// Writes the IDs of the macros that run at an event.
pub(crate) fn write_listed<W: Write>(
    breakdown: &Breakdown,
    event: &EventCost,
    out: &mut W,
) -> io::Result<()> {
    write!(out, ": Macro")?;
    for id in breakdown.listings.at(event.id, event.event) {
        write!(out, " {id}")?;
    }
    Ok(())
}

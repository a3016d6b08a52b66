//! Differences as lines for people.

use crate::changes::changes_of;
use crate::comparison::Difference;
use crate::sides::Sides;
use crate::texts::{EntryChangeText, ValueChangeText};
use std::alloc::Global;
use std::io::{self, Write};
use vt_objects::{ObjectId, Store};

/// Writes a difference: a line, and below that of a changed object a line for each change.
pub(crate) fn write_difference<W: Write>(
    alloc: Global,
    sides: &Sides<'_>,
    difference: Difference,
    out: &mut W,
) -> io::Result<()> {
    let Sides { old, new } = sides;
    match difference {
        Difference::Removed { id } => writeln!(out, "removed {}", old.label(id)),
        Difference::Renumbered {
            old: before,
            new: after,
        } => {
            write!(out, "renumbered {} -> {}", old.label(before), after.raw())?;
            match new.names.get(after) {
                Some(name) => writeln!(out, " `{name}`"),
                None => writeln!(out),
            }
        }
        Difference::OtherKind { id } => {
            writeln!(out, "other kind {}, was {}", new.label(id), old.label(id))
        }
        Difference::Changed { id } => {
            writeln!(out, "changed {}", new.label(id))?;
            write_changes(alloc, sides, id, out)
        }
        Difference::Added { id } => writeln!(out, "added {}", new.label(id)),
    }
}

/// Writes the changes of an object of both pools.
fn write_changes<W: Write>(
    alloc: Global,
    sides: &Sides<'_>,
    id: ObjectId,
    out: &mut W,
) -> io::Result<()> {
    let Sides { old, new } = sides;
    if let Some(before) = old.inspection.objects.get(id)
        && let Some(after) = new.inspection.objects.get(id)
    {
        let changes = changes_of(alloc, before, after)?;
        for change in changes.values.iter() {
            let sides = *sides;
            writeln!(out, "  {}", ValueChangeText { sides, change })?;
        }
        for change in changes.entries.iter() {
            let sides = *sides;
            writeln!(out, "  {}", EntryChangeText { sides, change })?;
        }
    }
    Ok(())
}

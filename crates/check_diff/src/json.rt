//! Differences as lines of JSON.

use crate::changes::{Shown, ValueChange, changes_of};
use crate::comparison::Difference;
use crate::entry::{Entry, Placed};
use crate::entry_changes::EntryChange;
use crate::sides::Sides;
use check_json::label_value;
use check_text::{CheckedPool, event_name};
use serde_json::Value;
use std::alloc::{AllocError, Global};
use std::io::{self, Write};
use vt_cli::JsonLine;
use vt_frames_text::ShownScale;
use vt_objects::{ObjectId, Store};

/// Writes a difference as a line of JSON, or each change of a changed object as one.
pub(crate) fn write_difference_json<W: Write>(
    alloc: Global,
    sides: &Sides<'_>,
    difference: Difference,
    out: &mut W,
) -> io::Result<()> {
    let Sides { old, new } = sides;
    match difference {
        Difference::Removed { id } => line_of(alloc, "removed", old, id)?.write(out),
        Difference::Added { id } => line_of(alloc, "added", new, id)?.write(out),
        Difference::OtherKind { id } => {
            let mut line = line_of(alloc, "other kind", new, id)?;
            line.put("was", label_value(alloc, old.label(id))?)?;
            line.write(out)
        }
        Difference::Renumbered {
            old: before,
            new: after,
        } => {
            let mut line = line_of(alloc, "renumbered", new, after)?;
            line.put("was", label_value(alloc, old.label(before))?)?;
            line.write(out)
        }
        Difference::Changed { id } => write_changes(alloc, sides, id, out),
    }
}

/// A line with a difference and its object.
fn line_of(
    alloc: Global,
    difference: &str,
    source: &CheckedPool<'_>,
    id: ObjectId,
) -> Result<JsonLine, AllocError> {
    let mut line = JsonLine::new(alloc);
    line.put_text("difference", difference)?;
    line.put("object", label_value(alloc, source.label(id))?)?;
    Ok(line)
}

/// Writes each change of an object of both pools as a line.
fn write_changes<W: Write>(
    alloc: Global,
    sides: &Sides<'_>,
    id: ObjectId,
    out: &mut W,
) -> io::Result<()> {
    let Sides { old, new } = sides;
    if let Some(before) = old.inspection.objects.get(id)
        && let Some(after) = new.inspection.objects.get(id)
    {
        let changes = changes_of(alloc, before, after)?;
        for change in changes.values.iter() {
            let mut line = line_of(alloc, "changed", new, id)?;
            put_value_change(alloc, sides, change, &mut line)?;
            line.write(out)?;
        }
        for change in changes.entries.iter() {
            let mut line = line_of(alloc, "changed", new, id)?;
            put_entry_change(alloc, sides, change, &mut line)?;
            line.write(out)?;
        }
    }
    Ok(())
}

/// Adds the field, and the old and the new value.
fn put_value_change(
    alloc: Global,
    sides: &Sides<'_>,
    change: &ValueChange<'_>,
    line: &mut JsonLine,
) -> Result<(), AllocError> {
    line.put_text("field", change.field)?;
    line.put("old", shown_value(alloc, &sides.old, &change.old)?)?;
    line.put("new", shown_value(alloc, &sides.new, &change.new)?)?;
    match change.at {
        Some(at) => line.put_number("at", at as u64),
        None => Ok(()),
    }
}

/// Adds the field of a list, and the old and the new entry.
fn put_entry_change(
    alloc: Global,
    sides: &Sides<'_>,
    change: &EntryChange,
    line: &mut JsonLine,
) -> Result<(), AllocError> {
    match change {
        EntryChange::Removed(old) => {
            line.put_text("field", old.entry.field())?;
            put_entries(alloc, sides, "removed", Some(old), None, line)
        }
        EntryChange::Added(new) => {
            line.put_text("field", new.entry.field())?;
            put_entries(alloc, sides, "added", None, Some(new), line)
        }
        EntryChange::Moved { old, new, .. } => {
            line.put_text("field", new.entry.field())?;
            put_entries(alloc, sides, "moved", Some(old), Some(new), line)
        }
    }
}

/// Adds a change of a list in a word, and the old and the new entry.
fn put_entries(
    alloc: Global,
    sides: &Sides<'_>,
    verb: &str,
    old: Option<&Placed>,
    new: Option<&Placed>,
    line: &mut JsonLine,
) -> Result<(), AllocError> {
    line.put_text("change", verb)?;
    line.put("old", entry_value(alloc, &sides.old, old)?)?;
    line.put("new", entry_value(alloc, &sides.new, new)?)
}

/// The value of a field: a number, an object or `null` for none, or a text, each byte of which is a character of Latin-1.
fn shown_value(
    alloc: Global,
    source: &CheckedPool<'_>,
    shown: &Shown<'_>,
) -> Result<Value, AllocError> {
    match shown {
        Shown::Number(number) => Ok(Value::from(*number)),
        Shown::Scale(scale) => {
            let scale = ShownScale(u32::from_le_bytes(scale.to_bytes()));
            Ok(Value::String(format!(in alloc; "{scale}")?))
        }
        Shown::Object(id) => {
            let id = ObjectId::from_raw(*id);
            match id.is_null() {
                true => Ok(Value::Null),
                false => label_value(alloc, source.label(id)),
            }
        }
        Shown::Text(text) => {
            let mut characters = String::new(alloc);
            for byte in text.iter() {
                characters.push(char::from(*byte))?;
            }
            Ok(Value::String(characters))
        }
    }
}

/// An entry with its index, or `null` for none.
fn entry_value(
    alloc: Global,
    source: &CheckedPool<'_>,
    placed: Option<&Placed>,
) -> Result<Value, AllocError> {
    let Some(Placed { index, entry }) = placed else {
        return Ok(Value::Null);
    };
    let mut value = JsonLine::new(alloc);
    value.put_number("index", *index as u64)?;
    match entry {
        Entry::Child(child) => {
            value.put("object", label_value(alloc, source.label(child.id))?)?;
            value.put("x", Value::from(i64::from(child.x)))?;
            value.put("y", Value::from(i64::from(child.y)))?;
        }
        Entry::Key(id) | Entry::Item(id) => {
            value.put(
                "object",
                shown_value(alloc, source, &Shown::Object(id.raw()))?,
            )?;
        }
        Entry::Macro(entry) => {
            let id = ObjectId::from_raw(u16::from(entry.macro_id));
            value.put_number("event", u64::from(entry.event))?;
            value.put_text("event_name", event_name(entry.event))?;
            value.put("object", label_value(alloc, source.label(id))?)?;
        }
        Entry::Language(language) => {
            let letters = [language.first, language.second];
            let shown = Shown::Text(&letters);
            value.put("language", shown_value(alloc, source, &shown)?)?;
        }
        Entry::Point(point) => {
            value.put_number("x", u64::from(point.x))?;
            value.put_number("y", u64::from(point.y))?;
        }
    }
    Ok(value.into_value())
}

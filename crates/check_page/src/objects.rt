//! The objects of a pool.

use crate::references::references_value;
use check_text::CheckedPool;
use std::alloc::{AllocError, Global};
use std::io::{self, Write};
use vt_cli::JsonLine;
use vt_objects::{Object, ObjectId};

/// Writes a line of JSON for each of the first objects of a pool, by rising ID: its ID, kind and name, the offset of its record, its text if
/// it has one, and its references. Returns how many objects are left out.
pub(crate) fn put_objects<W: Write>(
    alloc: Global,
    source: &CheckedPool<'_>,
    most: usize,
    out: &mut W,
) -> io::Result<u64> {
    let entries = source.inspection.objects.entries();
    for (id, object) in entries.iter().take(most) {
        object_line(alloc, source, *id, object)?.write(out)?;
    }
    Ok(entries.len().saturating_sub(most) as u64)
}

/// The line of an object.
fn object_line(
    alloc: Global,
    source: &CheckedPool<'_>,
    id: ObjectId,
    object: &Object<Vec<u8>>,
) -> Result<JsonLine, AllocError> {
    let mut line = begun_line(alloc, source, id)?;
    let record = source.inspection.record(id);
    line.put_number_if("at", record.map(|record| record.at as u64))?;
    let references = references_value(alloc, &source.inspection.objects, id, object)?;
    line.put("references", references)?;
    if let Some(text) = text_of(object) {
        line.put_text("text", from_latin_1(alloc, text)?)?;
    }
    Ok(line)
}

/// A line with the ID, the kind and the name of an object.
pub(crate) fn begun_line(
    alloc: Global,
    source: &CheckedPool<'_>,
    id: ObjectId,
) -> Result<JsonLine, AllocError> {
    let label = source.label(id);
    let mut line = JsonLine::new(alloc);
    line.put_number("id", u64::from(id.raw()))?;
    line.put_text_if("kind", label.kind)?;
    line.put_text_if("name", label.name)?;
    Ok(line)
}

/// The text of an object that has one.
fn text_of(object: &Object<Vec<u8>>) -> Option<&[u8]> {
    match object {
        Object::InputString(o) => Some(o.text.as_slice()),
        Object::OutputString(o) => Some(o.text.as_slice()),
        Object::StringVariable(o) => Some(o.text.as_slice()),
        _ => None,
    }
}

/// The text of bytes in Latin-1, in which each byte is a character.
fn from_latin_1(alloc: Global, bytes: &[u8]) -> Result<String, AllocError> {
    let mut text = String::new(alloc);
    for byte in bytes {
        text.push(char::from(*byte))?;
    }
    Ok(text)
}

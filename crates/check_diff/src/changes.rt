//! The changes of an object, each one line.

use crate::entry::entries_of;
use crate::entry_changes::{EntryChange, put_entry_changes};
use check_changes::{Value, changed_fields};
use std::alloc::{AllocError, Global};
use vt_objects::{Kind, Object, Scale};

/// The changes of an object, in the order of its record, in which lists come last.
#[derive(Drop)]
pub(crate) struct Changes<'a> {
    pub(crate) values: Vec<ValueChange<'a>>,
    pub(crate) entries: Vec<EntryChange>,
}

/// A field with another value.
#[derive(Clone, Copy, PartialEq, Eq)]
pub(crate) struct ValueChange<'a> {
    pub(crate) field: &'static str,
    pub(crate) old: Shown<'a>,
    pub(crate) new: Shown<'a>,
    /// The first byte that differs, if the values do not show it.
    pub(crate) at: Option<usize>,
}

/// A value as it is shown.
#[derive(Clone, Copy, PartialEq, Eq)]
pub(crate) enum Shown<'a> {
    /// A number, or the number of bytes of a picture or a macro.
    Number(i64),
    Scale(Scale),
    /// An object by its ID.
    Object(u16),
    Text(&'a [u8]),
}

/// The fields with the ID of an object, by their names. The value of an Object Pointer is one too.
const REFERENCES: [&str; 9] = [
    "active mask",
    "soft key mask",
    "font",
    "input attributes",
    "variable",
    "target variable",
    "line attributes",
    "fill",
    "pattern",
];

/// The name of the fields with a text.
const TEXT: &str = "text";

/// The changes of an object.
pub(crate) fn changes_of<'a>(
    alloc: Global,
    old: &'a Object<Vec<u8>>,
    new: &'a Object<Vec<u8>>,
) -> Result<Changes<'a>, AllocError> {
    let mut changes = Changes {
        values: Vec::new(alloc),
        entries: Vec::new(alloc),
    };
    let fields = changed_fields(alloc, old, new)?;
    let values = fields.old.iter().zip(fields.new.iter());
    for (field, (before, after)) in fields.names.iter().zip(values) {
        put_changes(alloc, old.kind(), field, before, after, &mut changes)?;
    }
    Ok(changes)
}

/// Appends the changes of a field.
fn put_changes<'a>(
    alloc: Global,
    kind: Kind,
    field: &'static str,
    before: &Value<'a>,
    after: &Value<'a>,
    changes: &mut Changes<'a>,
) -> Result<(), AllocError> {
    if let Some(old) = shown_of(kind, field, before)
        && let Some(new) = shown_of(kind, field, after)
    {
        let at = hidden_difference(before, after, &new);
        changes.values.push(ValueChange {
            field,
            old,
            new,
            at,
        })?;
        return Ok(());
    }
    let old = entries_of(alloc, before)?;
    let new = entries_of(alloc, after)?;
    put_entry_changes(alloc, old.as_slice(), new.as_slice(), &mut changes.entries)
}

/// The value of a field as it is shown. `None` for a list and for a count.
fn shown_of<'a>(kind: Kind, field: &str, value: &Value<'a>) -> Option<Shown<'a>> {
    match value {
        Value::Byte(number) => Some(Shown::Number(i64::from(*number))),
        Value::Word(number) if is_reference(kind, field) => { Some(Shown::Object(*number)) }
        Value::Word(number) => Some(Shown::Number(i64::from(*number))),
        Value::Long(number) => Some(Shown::Number(i64::from(*number))),
        Value::SignedLong(number) => Some(Shown::Number(i64::from(*number))),
        Value::Scale(scale) => Some(Shown::Scale(*scale)),
        Value::Decimals(decimals) => Some(Shown::Number(i64::from(decimals.count()))),
        Value::Bytes(text) if field == TEXT => Some(Shown::Text(text)),
        // A Vec has at most 2^63 bytes.
        Value::Bytes(bytes) => Some(Shown::Number(i64::try_from(bytes.len()).unwrap_or(i64::MAX))),
        Value::Children(_)
        | Value::Keys(_)
        | Value::Items(_)
        | Value::Macros(_)
        | Value::Languages(_)
        | Value::Points(_)
        | Value::ObjectCount(_)
        | Value::MacroCount(_)
        | Value::Count(_)
        | Value::LongCount(_)
        | Value::PictureCount(_) => None,
    }
}

/// Whether a field of two bytes has the ID of an object.
fn is_reference(kind: Kind, field: &str) -> bool {
    kind == Kind::ObjectPointer || REFERENCES.iter().any(|name| *name == field)
}

/// The index of the first byte that differs, unless the shown values differ too.
fn hidden_difference(old: &Value<'_>, new: &Value<'_>, shown: &Shown<'_>) -> Option<usize> {
    let (Value::Bytes(old), Value::Bytes(new)) = (old, new) else {
        return None;
    };
    match shown {
        Shown::Text(_) if !look_alike(old, new) => None,
        _ => Some(first_difference(old, new)),
    }
}

/// Whether two texts are the same in quotation marks.
fn look_alike(old: &[u8], new: &[u8]) -> bool {
    let mut bytes = old.iter().zip(new);
    old.len() == new.len() && bytes.all(|(old, new)| seen(*old) == seen(*new))
}

/// A byte of a text as it is seen in quotation marks.
fn seen(byte: u8) -> u8 {
    let is_printable = byte.is_ascii_graphic() || byte == b' ';
    if is_printable { byte } else { b'.' }
}

/// The index of the first byte in which bytes differ; the length of the shorter ones if these begin the others.
fn first_difference(old: &[u8], new: &[u8]) -> usize {
    let mut bytes = old.iter().zip(new);
    match bytes.position(|(old, new)| old != new) {
        Some(index) => index,
        None => old.len().min(new.len()),
    }
}

//! The entries of the lists in records.

use check_changes::Value;
use std::alloc::{AllocError, Global};
use vt_objects::{Child, Language, MacroEntry, ObjectId, Point};

/// An entry of a list.
#[derive(Clone, Copy, PartialEq, Eq)]
pub(crate) enum Entry {
    Child(Child),
    Key(ObjectId),
    Item(ObjectId),
    Macro(MacroEntry),
    Language(Language),
    Point(Point),
}

impl Entry {
    /// The field of its list.
    pub(crate) fn field(&self) -> &'static str {
        match self {
            Entry::Child(_) => "children",
            Entry::Key(_) => "keys",
            Entry::Item(_) => "items",
            Entry::Macro(_) => "macros",
            Entry::Language(_) => "languages",
            Entry::Point(_) => "points",
        }
    }
}

/// An entry with its index in its list.
#[derive(Clone, Copy, PartialEq, Eq)]
pub(crate) struct Placed {
    pub(crate) index: usize,
    pub(crate) entry: Entry,
}

/// The entries of a list; none for a value that is no list.
pub(crate) fn entries_of(alloc: Global, value: &Value<'_>) -> Result<Vec<Entry>, AllocError> {
    match value {
        Value::Children(list) => list.iter().map(|it| Entry::Child(*it)).collect(alloc),
        Value::Keys(list) => list.iter().map(|it| Entry::Key(*it)).collect(alloc),
        Value::Items(list) => list.iter().map(|it| Entry::Item(*it)).collect(alloc),
        Value::Macros(list) => list.iter().map(|it| Entry::Macro(*it)).collect(alloc),
        Value::Languages(list) => list.iter().map(|it| Entry::Language(*it)).collect(alloc),
        Value::Points(list) => list.iter().map(|it| Entry::Point(*it)).collect(alloc),
        Value::Byte(_)
        | Value::Word(_)
        | Value::Long(_)
        | Value::SignedLong(_)
        | Value::Scale(_)
        | Value::Decimals(_)
        | Value::ObjectCount(_)
        | Value::MacroCount(_)
        | Value::Count(_)
        | Value::LongCount(_)
        | Value::PictureCount(_)
        | Value::Bytes(_) => Ok(Vec::new(alloc)),
    }
}

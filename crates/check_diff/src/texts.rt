//! Changes in words.

use crate::changes::{Shown, ValueChange};
use crate::entry::Entry;
use crate::entry_changes::EntryChange;
use crate::sides::Sides;
use check_text::{CheckedPool, event_name};
use std::fmt;
use vt_frames_text::{QuotedText, ShownScale};
use vt_objects::{Event, ObjectId};

/// A field with another value in words, such as `width: 100 -> 120`.
#[derive(Clone, Copy, Drop)]
pub(crate) struct ValueChangeText<'a, 'b> {
    pub(crate) sides: Sides<'a>,
    pub(crate) change: &'b ValueChange<'b>,
}

impl fmt::Display for ValueChangeText<'_, '_> {
    fn fmt<W: fmt::Write>(&self, f: &mut fmt::Formatter<W>) -> fmt::Result {
        let old = ShownText {
            source: self.sides.old,
            shown: &self.change.old,
        };
        let new = ShownText {
            source: self.sides.new,
            shown: &self.change.new,
        };
        write!(f, "{}: {old} -> {new}", self.change.field)?;
        match self.change.at {
            Some(at) => write!(f, ", the first difference at byte {at}"),
            None => Ok(()),
        }
    }
}

/// A change of a list in words, such as `removed child 3, Container 100, at 10,5`.
#[derive(Clone, Copy, Drop)]
pub(crate) struct EntryChangeText<'a, 'b> {
    pub(crate) sides: Sides<'a>,
    pub(crate) change: &'b EntryChange,
}

impl fmt::Display for EntryChangeText<'_, '_> {
    fn fmt<W: fmt::Write>(&self, f: &mut fmt::Formatter<W>) -> fmt::Result {
        write_change(f, self.sides, self.change)
    }
}

/// A value in words: a number, an object, or a text in quotation marks.
#[derive(Clone, Copy, Drop)]
struct ShownText<'a, 'b> {
    source: CheckedPool<'a>,
    shown: &'b Shown<'b>,
}

impl fmt::Display for ShownText<'_, '_> {
    fn fmt<W: fmt::Write>(&self, f: &mut fmt::Formatter<W>) -> fmt::Result {
        match self.shown {
            Shown::Number(number) => write!(f, "{number}"),
            Shown::Scale(scale) => {
                write!(f, "{}", ShownScale(u32::from_le_bytes(scale.to_bytes())))
            }
            Shown::Object(id) => {
                let id = ObjectId::from_raw(*id);
                match id.is_null() {
                    true => f.write_str("none"),
                    false => write!(f, "{}", self.source.label(id)),
                }
            }
            Shown::Text(text) => write!(f, "{}", QuotedText(text)),
        }
    }
}

/// The index of an entry, and before it the old one if that tells of a new order.
#[derive(Clone, Copy, Drop)]
struct IndexText {
    old: Option<usize>,
    new: usize,
}

impl fmt::Display for IndexText {
    fn fmt<W: fmt::Write>(&self, f: &mut fmt::Formatter<W>) -> fmt::Result {
        match self.old {
            Some(old) => write!(f, "{old} -> {}", self.new),
            None => write!(f, "{}", self.new),
        }
    }
}

/// An event by its name, or by its number if there is no such event.
#[derive(Clone, Copy, Drop)]
struct EventText {
    number: u8,
}

impl fmt::Display for EventText {
    fn fmt<W: fmt::Write>(&self, f: &mut fmt::Formatter<W>) -> fmt::Result {
        match Event::from_number(self.number) {
            Some(_) => f.write_str(event_name(self.number)),
            None => write!(f, "event {}", self.number),
        }
    }
}

/// Writes a change of a list.
fn write_change<W: fmt::Write>(
    f: &mut fmt::Formatter<W>,
    sides: Sides<'_>,
    change: &EntryChange,
) -> fmt::Result {
    match change {
        EntryChange::Removed(it) => {
            let index = IndexText {
                old: None,
                new: it.index,
            };
            f.write_str("removed ")?;
            write_entry(f, sides.old, &it.entry, index)
        }
        EntryChange::Added(it) => {
            let index = IndexText {
                old: None,
                new: it.index,
            };
            f.write_str("added ")?;
            write_entry(f, sides.new, &it.entry, index)
        }
        EntryChange::Moved {
            old,
            new,
            is_reordered,
        } => {
            let index = IndexText {
                old: if *is_reordered { Some(old.index) } else { None },
                new: new.index,
            };
            f.write_str("moved ")?;
            write_entry(f, sides.new, &old.entry, index)?;
            write_position(f, &old.entry, &new.entry)
        }
    }
}

/// Writes an entry with its index, such as `child 3, Container 100, at 10,5`.
fn write_entry<W: fmt::Write>(
    f: &mut fmt::Formatter<W>,
    source: CheckedPool<'_>,
    entry: &Entry,
    index: IndexText,
) -> fmt::Result {
    match entry {
        Entry::Child(child) => {
            let label = source.label(child.id);
            write!(f, "child {index}, {label}, at {},{}", child.x, child.y)
        }
        Entry::Key(id) => {
            let shown = &Shown::Object(id.raw());
            write!(f, "key {index}, {}", ShownText { source, shown })
        }
        Entry::Item(id) => {
            let shown = &Shown::Object(id.raw());
            write!(f, "item {index}, {}", ShownText { source, shown })
        }
        Entry::Macro(entry) => {
            let event = EventText {
                number: entry.event,
            };
            let label = source.label(ObjectId::from_raw(u16::from(entry.macro_id)));
            write!(f, "macro entry {index} ({event}), {label}")
        }
        Entry::Language(language) => {
            let letters = [language.first, language.second];
            write!(f, "language {index}, {}", QuotedText(&letters))
        }
        Entry::Point(point) => write!(f, "point {index}, at {},{}", point.x, point.y),
    }
}

/// Writes the new position of an entry, if it is another.
fn write_position<W: fmt::Write>(
    f: &mut fmt::Formatter<W>,
    old: &Entry,
    new: &Entry,
) -> fmt::Result {
    let place = position_of(new);
    if place == position_of(old) {
        return Ok(());
    }
    match place {
        Some((x, y)) => write!(f, " -> {x},{y}"),
        None => Ok(()),
    }
}

/// The position of a child or a point.
fn position_of(entry: &Entry) -> Option<(i32, i32)> {
    match entry {
        Entry::Child(child) => Some((i32::from(child.x), i32::from(child.y))),
        Entry::Point(point) => Some((i32::from(point.x), i32::from(point.y))),
        Entry::Key(_) | Entry::Item(_) | Entry::Macro(_) | Entry::Language(_) => None,
    }
}

//! The events of macro entries.

ghost use Rattle.std.specs.Prelude.{◌≡◌, ◌++◌, OnOk};
ghost use Rattle.vt_kinds.specs.Records.{seen};
ghost use Rattle.check_values.specs.Entries as spec;
ghost use Rattle.check_values.specs.Listed.{each_from};

use crate::warning::ValueWarning;
use std::alloc::AllocError;
use vt_objects::{Event, Kind, MacroEntry, Object, ObjectId};

/// Appends the macro entries of an object for events that its kind never has.
pub(crate) fn put_never_raised(
    id: ObjectId,
    object: &Object<Vec<u8>>,
    found: &mut Vec<ValueWarning>,
) -> Result<(), AllocError>
    ensures { OnOk result (found.new.items ≡ found.old.items ++ spec.never_raised id (seen object.now)) }
{
    put_entries(id, object.kind(), object.macros(), found)
}

fn put_entries(
    id: ObjectId,
    kind: Kind,
    entries: &[MacroEntry],
    found: &mut Vec<ValueWarning>,
) -> Result<(), AllocError>
    ensures { OnOk result (found.new.items ≡ found.old.items ++ each_from (spec.unless_raised id kind) 0 entries.now) }
{
    for (index, entry) in entries.iter().enumerate() {
        put_if_never(id, kind, index, *entry, found)?;
    }
    Ok(())
}

/// Appends an entry for an event that a kind never has.
fn put_if_never(
    id: ObjectId,
    kind: Kind,
    index: usize,
    entry: MacroEntry,
    found: &mut Vec<ValueWarning>,
) -> Result<(), AllocError>
    ensures { OnOk result (found.new.items ≡ found.old.items ++ spec.unless_raised id kind index entry) }
{
    let event = entry.event;
    if !can_have(kind, event) {
        found.push(ValueWarning::NeverRaised { id, index, event })?;
    }
    Ok(())
}

/// Whether objects of a kind can have the event with a number.
fn can_have(kind: Kind, event: u8) -> bool
    ensures { result ≡ spec.can_have kind event }
{
    match Event::from_number(event) {
        None => is_later(kind, event),
        Some(known) => is_later(kind, event) || kinds_with(known).contains(&kind.number()),
    }
}

/// Whether objects of a kind have an event of a later version: that of a touched Data Mask, or any event of an extended macro entry.
fn is_later(kind: Kind, event: u8) -> bool
    ensures { result ≡ spec.is_later kind event }
{
    event == EXTENDED || (event == TOUCHED || event == UNTOUCHED) && kind.number() == DATA_MASK
}

/// The event of an entry that goes on in the next one, with an ID of two bytes.
const EXTENDED: u8 = 255;

/// The events of a Data Mask that is touched, and touched no more.
const TOUCHED: u8 = 27;

const UNTOUCHED: u8 = 28;

/// The number of the kind Data Mask.
const DATA_MASK: u8 = 1;

/// The numbers of the kinds whose objects can have an event (docs/PROFILE.md, "Warnings").
fn kinds_with(event: Event) -> &'static [u8]
    ensures { result.now ≡ spec.kinds_with event }
{
    match event {
        // No entry lists it.
        Event::RunByName => &[],
        Event::Activate | Event::Deactivate | Event::ActiveMask => &[0],
        Event::Show | Event::Hide => &[1, 2, 3, 4],
        Event::Enable
        | Event::Disable
        | Event::InputSelected
        | Event::InputDeselected
        | Event::Escape => &[6, 7, 8, 9, 10],
        Event::SoftKeyMask => &[1, 2],
        Event::Attribute => &[
            0, 1, 2, 3, 4, 5, 6, 7, 8, 9, 10, 11, 12, 13, 14, 15, 16, 17, 18, 19, 20, 23, 24, 25,
            26,
        ],
        Event::BackgroundColour => &[0, 1, 2, 4, 5, 6, 7, 8, 9, 11, 12],
        Event::Font => &[23],
        Event::Line => &[24],
        Event::Fill => &[25],
        Event::ChildLocation | Event::ChildPosition => &[0, 1, 2, 3, 5, 6],
        Event::Size => &[3, 6, 7, 8, 9, 10, 11, 12, 14, 15, 16, 17, 18, 19, 20],
        Event::Value => &[7, 8, 9, 10, 11, 12, 17, 18, 19],
        Event::Priority => &[2],
        Event::EndPoint => &[13],
        Event::EntryOfValue | Event::EntryOfNewValue => &[7, 8, 9, 10],
        Event::KeyPress | Event::KeyRelease => &[5, 6],
    }
}

//! Slots: the references of an object with the kinds that they allow.

ghost use Rattle.std.specs.Prelude.{◌≡◌, ◌≤◌};
ghost use Rattle.vt_kinds.specs.References.{slot};
ghost use Rattle.vt_kinds.specs.RemainingSlots.{prepended, listed_from, entries_left};

use crate::entries::Child;
use crate::id::ObjectId;
use crate::kind::Kind;
use crate::kinds::Kinds;
use crate::place::Place;
use std::marker::Model;

/// A reference of an object: its position, its ID, and the allowed kinds.
#[derive(Clone, Copy, PartialEq, Eq)]
pub struct Slot {
    /// The field or list entry in the object.
    pub place: Place,
    /// The referenced object, or NULL.
    pub id: ObjectId,
    /// Whether the reference may be NULL.
    pub null: bool,
    /// The allowed kinds.
    pub kinds: Kinds,
}

impl Slot {
    /// Makes the slot of a reference in an object of a kind.
    pub(crate) fn new(kind: Kind, place: Place, id: ObjectId) -> Slot
        ensures { result ≡ slot kind place id }
    {
        Slot {
            place,
            id,
            null: place.allows_null(),
            kinds: place.kinds(kind),
        }
    }
}

/// The remaining entries of a list, not yet yielded.
#[derive(Clone, Copy)]
pub(crate) enum Listed<'a> {
    Children(&'a [Child]),
    Keys(&'a [ObjectId]),
    Items(&'a [ObjectId]),
}

/// An iterator over the slots of an object.
#[derive(Drop)]
pub struct Slots<'a> {
    kind: Kind,
    first: Option<Slot>,
    second: Option<Slot>,
    third: Option<Slot>,
    index: u8,
    listed: Listed<'a>,
}

impl<'a> Model for Slots<'a> {
    ghost use Rattle.std.specs.Prelude.{List, ◌+◌, ◌≤◌};
    ghost use Rattle.vt_kinds.specs.declared.slot.Slot.{Slot};
    ghost use Rattle.vt_kinds.specs.RemainingSlots.{prepended, listed_from, entries_left};

    ghost Value = { List Slot };

    ghost view = { λ s. prepended s.first (prepended s.second (prepended s.third (listed_from s.kind s.index s.listed))) };

    ghost invariant = { λ s. s.index + entries_left s.listed ≤ 255 };
}

impl<'a> Slots<'a> {
    /// Makes an iterator over at most three slots and then those of a list.
    pub(crate) fn new(
        kind: Kind,
        first: Option<Slot>,
        second: Option<Slot>,
        third: Option<Slot>,
        listed: Listed<'a>,
    ) -> Slots<'a>
        requires { entries_left listed ≤ 255 }
        ensures { result ≡ prepended first (prepended second (prepended third (listed_from kind 0 listed.entry))) }
    {
        Slots {
            kind,
            first,
            second,
            third,
            index: 0,
            listed,
        }
    }
}

impl<'a> Iterator for Slots<'a> {
    ghost use Rattle.std.specs.Iterator.{YieldsFirst, item_count};

    type Item = Slot;

    ghost next_gives = { YieldsFirst (λ s. s) };

    ghost remaining = { item_count (λ s. s) };

    fn next(&mut self) -> Option<Slot> {
        if let Some(slot) = self.first.take() {
            return Some(slot);
        }
        if let Some(slot) = self.second.take() {
            return Some(slot);
        }
        if let Some(slot) = self.third.take() {
            return Some(slot);
        }
        let index = self.index;
        let (place, id) = match self.listed {
            Listed::Children(children) => {
                let (child, rest) = children.split_first()?;
                self.listed = Listed::Children(rest);
                (Place::Child(index), child.id)
            }
            Listed::Keys(keys) => {
                let (key, rest) = keys.split_first()?;
                self.listed = Listed::Keys(rest);
                (Place::Key(index), *key)
            }
            Listed::Items(items) => {
                let (item, rest) = items.split_first()?;
                self.listed = Listed::Items(rest);
                (Place::Item(index), *item)
            }
        };
        self.index += 1;
        Some(Slot::new(self.kind, place, id))
    }
}

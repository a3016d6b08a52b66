//! A store by rising ID with a table of indices.

ghost use Rattle.std.specs.Prelude.{◌≡◌, None, IfOk, IfSome, IfNone, map, slice_get};
ghost use Rattle.std.specs.Option.{option_map};
ghost use Rattle.std.specs.FinMap as finite;
ghost use Rattle.std.specs.Borrow.{sem, LendsSo};
ghost use Rattle.vt_kinds.specs.Ids.{null_id};
ghost use Rattle.vt_kinds.specs.Records.{seen};
ghost use Rattle.vt_stores.specs.LentObjects.{object_row};
ghost use Rattle.vt_stores.specs.Stores.{AreNamed, AreStored, IsPlace, seen_entry, by_rising_id, object_at, map_of};

use crate::sorting::{copies, sort};
use crate::store::Store;
use std::alloc::{AllocError, Global};
use std::marker::Model;
use vt_kinds::{Object, ObjectId};

/// Objects by rising ID. A table of their indices takes 2 bytes for each number from the first ID to the last one; a
/// binary search covers IDs that the table misses.
pub struct SortedStore {
    entries: Vec<(ObjectId, Object<Vec<u8>>)>,
    // The index to try for each number from the first ID on.
    places: Vec<u16>,
}

// Written out, so that the crates above need not prove it again.
impl Drop for SortedStore {
    fn drop(self) {
        let SortedStore {
            entries: _entries,
            places: _places,
        } = self;
    }
}

impl Model for SortedStore {
    ghost use Rattle.std.specs.Prelude.{map};
    ghost use Rattle.vt_stores.specs.Stores.{Objects, AreStored, seen_entry};

    ghost Value = { Objects };

    ghost view = { λ store. map seen_entry store.entries.items };

    ghost invariant = { λ store. AreStored (map seen_entry store.entries.items) };
}

impl SortedStore {
    /// Makes a store of these objects, in any order, without a copy. IDs must be unique, and none may be NULL.
    pub fn from_vec(entries: Vec<(ObjectId, Object<Vec<u8>>)>) -> Result<SortedStore, AllocError>
        requires { AreNamed (map seen_entry entries.items) }
        ensures made { IfOk result (λ store. store ≡ by_rising_id (map seen_entry entries.items)) }
        ensures stored { IfOk result AreStored }
    {
        let mut entries = entries;
        sort(&mut entries)?;
        let places = places_of(*entries.allocator(), &entries)?;
        Ok(SortedStore { entries, places })
    }

    /// The objects with their IDs, by rising ID.
    pub fn entries(&self) -> &[(ObjectId, Object<Vec<u8>>)]
        ensures all { map seen_entry result.now ≡ self.now }
        ensures stored { AreStored self.now }
    {
        &self.entries
    }
}

impl Store for SortedStore {
    ghost contents = { λ store. map_of store };

    fn from_objects(
        alloc: Global,
        objects: &[(ObjectId, Object<Vec<u8>>)],
    ) -> Result<SortedStore, AllocError> {
        let mut entries = copies(alloc, objects)?;
        sort(&mut entries)?;
        let places = places_of(alloc, &entries)?;
        Ok(SortedStore { entries, places })
    }

    fn get(&self, id: ObjectId) -> Option<&Object<Vec<u8>>>
        ensures value { option_map (λ o. seen o.now) result ≡ finite.get (map_of self.now) id }
        ensures named { finite.get (map_of self.now) null_id ≡ None }
        ensures found { option_map (λ o. seen o.now) result ≡ object_at self.now id }
    {
        match place_of(&self.entries, &self.places, id) {
            None => None,
            Some(place) => Some(&self.entries[place].1),
        }
    }

    fn get_mut(&mut self, id: ObjectId) -> Option<&mut Object<Vec<u8>>> {
        match place_of(&self.entries, &self.places, id) {
            None => None,
            Some(place) => Some(&mut self.entries[place].1),
        }
    }

    fn count(&self) -> usize {
        self.entries.len()
    }

    fn entry_at(&self, place: usize) -> Option<(ObjectId, &Object<Vec<u8>>)> {
        match self.entries.get(place) {
            None => None,
            Some((id, object)) => Some((*id, object)),
        }
    }

    fn place(&self, id: ObjectId) -> Option<usize>
        ensures some { IfSome result (IsPlace (finite.entries (map_of self.now)) id) }
        ensures none { IfNone result (finite.get (map_of self.now) id ≡ None) }
        ensures stands { IfSome result (IsPlace self.now id) }
        ensures absent { IfNone result (object_at self.now id ≡ None) }
    {
        place_of(&self.entries, &self.places, id)
    }
}

/// Makes the table of indices, from the first ID to the last one. No contract relies on it: each index is tested at its use.
fn places_of(
    alloc: Global,
    entries: &[(ObjectId, Object<Vec<u8>>)],
) -> Result<Vec<u16>, AllocError> {
    let (Some((first, _)), Some((last, _))) = (entries.first(), entries.last()) else {
        return Ok(Vec::new(alloc));
    };
    let last = usize::from(last.raw().saturating_sub(first.raw()));
    let mut places = Vec::from_elem(alloc, 0, last + 1)?;
    for (place, (id, _)) in entries.iter().enumerate() {
        let above = usize::from(id.raw().saturating_sub(first.raw()));
        if let (Some(kept), Ok(place)) = (places.get_mut(above), u16::try_from(place)) {
            *kept = place;
        }
    }
    Ok(places)
}

/// The index of an ID among entries by rising ID, or `None`.
fn place_of(entries: &[(ObjectId, Object<Vec<u8>>)], places: &[u16], id: ObjectId) -> Option<usize>
    requires { AreStored (map seen_entry entries.now) }
    ensures some { IfSome result (IsPlace (map seen_entry entries.now) id) }
    ensures none { IfNone result (object_at (map seen_entry entries.now) id ≡ None) }
{
    match kept_place(entries, places, id) {
        Some(place) => Some(place),
        None => entries
            .binary_search_by_key(&id.raw(), |entry| entry.0.raw())
            .ok(),
    }
}

/// The index that `places` holds for an ID, if the ID is there.
fn kept_place(
    entries: &[(ObjectId, Object<Vec<u8>>)],
    places: &[u16],
    id: ObjectId,
) -> Option<usize>
    requires { AreStored (map seen_entry entries.now) }
    ensures { IfSome result (IsPlace (map seen_entry entries.now) id) }
{
    let (first, _) = entries.first()?;
    let above = id.raw().checked_sub(first.raw())?;
    let place = places.get(usize::from(above))?;
    stands_at(entries, id, usize::from(*place))
}

/// The index, if the ID is there.
fn stands_at(entries: &[(ObjectId, Object<Vec<u8>>)], id: ObjectId, place: usize) -> Option<usize>
    requires { AreStored (map seen_entry entries.now) }
    ensures { IfSome result (IsPlace (map seen_entry entries.now) id) }
{
    if entries.get(place)?.0 == id {
        return Some(place);
    }
    None
}

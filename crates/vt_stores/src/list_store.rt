//! A store with a linear search.

ghost use Rattle.std.specs.Prelude.{◌≡◌, ◌==◌};
ghost use Rattle.std.specs.List.{position_from};
ghost use Rattle.vt_stores.specs.Stores.{map_of};

use crate::sorting::{copies, sort};
use crate::store::Store;
use std::alloc::{AllocError, Global};
use std::marker::Model;
use vt_kinds::{Object, ObjectId};

/// Objects by rising ID with a linear search: a simple store for tests, next to `SortedStore`.
pub struct ListStore {
    entries: Vec<(ObjectId, Object<Vec<u8>>)>,
}

// Written out, so that the crates above need not prove it again.
impl Drop for ListStore {
    fn drop(self) {
        let ListStore { entries: _entries } = self;
    }
}

impl Model for ListStore {
    ghost use Rattle.std.specs.Prelude.{map};
    ghost use Rattle.vt_stores.specs.Stores.{Objects, AreStored, seen_entry};

    ghost Value = { Objects };

    ghost view = { λ store. map seen_entry store.entries.items };

    ghost invariant = { λ store. AreStored (map seen_entry store.entries.items) };
}

impl Store for ListStore {
    ghost contents = { λ store. map_of store };

    fn from_objects(
        alloc: Global,
        objects: &[(ObjectId, Object<Vec<u8>>)],
    ) -> Result<ListStore, AllocError> {
        let mut entries = copies(alloc, objects)?;
        sort(&mut entries)?;
        Ok(ListStore { entries })
    }

    fn get(&self, id: ObjectId) -> Option<&Object<Vec<u8>>> {
        match place_of(&self.entries, id) {
            None => None,
            Some(place) => Some(&self.entries[place].1),
        }
    }

    fn get_mut(&mut self, id: ObjectId) -> Option<&mut Object<Vec<u8>>> {
        match place_of(&self.entries, id) {
            None => None,
            Some(place) => Some(&mut self.entries[place].1),
        }
    }

    fn count(&self) -> usize {
        self.entries.len()
    }

    fn entry_at(&self, place: usize) -> Option<(ObjectId, &Object<Vec<u8>>)> {
        match self.entries.get(place) {
            None => None,
            Some((id, object)) => Some((*id, object)),
        }
    }

    fn place(&self, id: ObjectId) -> Option<usize> {
        place_of(&self.entries, id)
    }
}

/// The index of an ID among entries by rising ID, or `None`.
fn place_of(entries: &[(ObjectId, Object<Vec<u8>>)], id: ObjectId) -> Option<usize>
    ensures { result ≡ position_from (λ e. id == e.0) 0 entries.now }
{
    entries.iter().position(|entry| id == entry.0)
}

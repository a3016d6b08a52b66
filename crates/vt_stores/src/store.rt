//! The store of a working set's objects.

ghost use Rattle.std.specs.Prelude.{◌≡◌, ◌<◌, None, IfOk, IfSome, IfNone, map, slice_get};
ghost use Rattle.std.specs.Option.{option_map};
ghost use Rattle.std.specs.List.{All};
ghost use Rattle.std.specs.FinMap as finite;
ghost use Rattle.std.specs.Borrow.{sem, LendsSo};
ghost use Rattle.vt_kinds.specs.Ids.{null_id};
ghost use Rattle.vt_kinds.specs.Records.{seen};
ghost use Rattle.vt_stores.specs.Stores.{ObjectMap, AreNamed, IsPlace, ids, seen_entry, contents_of, with_object};
ghost use Rattle.vt_stores.specs.LentObjects.{object_row};

use std::alloc::{AllocError, Global};
use vt_kinds::{Object, ObjectId};

/// A finite map from IDs to objects. Its set of IDs never changes, and NULL is not in it.
pub trait Store: Drop {
    ghost contents: { Self → ObjectMap };

    /// Makes a store of copies of these objects, in any order. IDs must be unique, and none may be NULL.
    fn from_objects(
        alloc: Global,
        objects: &[(ObjectId, Object<Vec<u8>>)],
    ) -> Result<Self, AllocError>
    where
        Self: Sized,
        requires { AreNamed (map seen_entry objects.now) }
        ensures { IfOk result (λ store. contents store ≡ contents_of objects.now) };

    /// Returns the object of an ID, or `None`; always `None` for NULL.
    fn get(&self, id: ObjectId) -> Option<&Object<Vec<u8>>>
        ensures value { option_map (λ o. seen o.now) result ≡ finite.get (contents self.now) id }
        ensures named { finite.get (contents self.now) null_id ≡ None };

    /// Returns the object of an ID for a change, or `None`. A write changes this object alone.
    fn get_mut(&mut self, id: ObjectId) -> Option<&mut Object<Vec<u8>>>
        ensures* writes_back { sem 𝓛 (LendsSo Self.row object_row self.entry result
            (λ n w. contents n ≡ with_object (contents self.old) id (seen w))
            (λ n. contents n ≡ contents self.old)) }
        ensures value { option_map (λ o. seen o.now) result ≡ finite.get (contents self.old) id };

    /// The number of objects. NULL is no object's ID.
    fn count(&self) -> usize
        ensures count { result ≡ finite.len (contents self.now) }
        ensures named { All (λ id. id < null_id) (ids (finite.entries (contents self.now))) };

    /// Returns the object at an index, by rising ID from 0, and its ID; `None` from `count` on.
    fn entry_at(&self, place: usize) -> Option<(ObjectId, &Object<Vec<u8>>)>
        ensures { option_map (λ e. (e.0, seen e.1.now)) result ≡ slice_get (finite.entries (contents self.now)) place };

    /// The index of an ID, or `None` if it is missing.
    fn place(&self, id: ObjectId) -> Option<usize>
        ensures some { IfSome result (IsPlace (finite.entries (contents self.now)) id) }
        ensures none { IfNone result (finite.get (contents self.now) id ≡ None) };
}

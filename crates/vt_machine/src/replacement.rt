//! Updates that replace objects by others with the same references and macros (docs/PROFILE.md, "Updates of a pool").

ghost use Rattle.std.specs.Prelude.{◌≡◌, IsTrue, IfOk, IfSome, map};
ghost use Rattle.vt_kinds.specs.Records.{seen};
ghost use Rattle.vt_stores.specs.Shapes.{fixed, macro_bytes};
ghost use Rattle.vt_stores.specs.Stores.{seen_entry, map_of, with_object};
ghost use Rattle.vt_verify.specs.Rules.{IsVerified};
ghost use Rattle.vt_verify.specs.Updates.{updated};
ghost use Rattle.vt_machine.specs.Replacements.{Replaces, AreReplacements, with_objects_put, ids_of_slots};
ghost use Rattle.vt_machine.specs.SetStates.{renewed};

use crate::kept::kept_input;
use crate::live::Live;
use std::alloc::{AllocError, Global};
use std::convert::AsSlice;
use std::marker::Model;
use vt_objects::{Object, ObjectId, Slots, Store, slots};
use vt_pool::Pool;

/// The objects of an update that leaves all kinds, macros and references of a working set unchanged.
#[derive(Drop)]
pub struct Replacement {
    entries: Vec<(ObjectId, Object<Vec<u8>>)>,
}

impl Model for Replacement {
    ghost use Rattle.std.specs.Prelude.{map};
    ghost use Rattle.vt_stores.specs.Stores.{Objects, seen_entry};

    ghost Value = { Objects };

    ghost view = { λ r. map seen_entry r.entries.items };
}

impl<S: Store> Live<S> {
    /// Copies of the objects of an update, if each replaces an object with the same kind, macros and references. Such an
    /// update is accepted without a look at other objects. `None` for any other update, which may be accepted too.
    pub fn replacement(&self, update: &Pool<'_>) -> Result<Option<Replacement>, AllocError>
        ensures objects { IfOk result (λ found. IfSome found (λ replacement. replacement ≡ update.now)) }
        ensures fits { IfOk result (λ found. IfSome found (AreReplacements self.now.objects)) }
        // The objects after the update meet all rules.
        ensures verified { IfOk result (λ found. IfSome found (λ replacement. IsVerified (updated self.now.objects replacement))) }
    {
        if !all_replace(&self.store, update) {
            return Ok(None);
        }
        let entries = copies(self.allocator(), update)?;
        Ok(Some(Replacement { entries }))
    }

    /// Replaces objects by those of an update. Keeps the held key, and the selected input if its object exists, as `renew`
    /// does.
    pub fn replace(&mut self, replacement: Replacement)
        requires { AreReplacements self.old.objects replacement }
        ensures { self.new ≡ renewed self.old (map_of (updated self.old.objects replacement)) }
    {
        let Replacement { entries } = replacement;
        self.input = kept_input(&self.store, &self.store, self.input);
        put_all(&mut self.store, entries);
        self.are_marked = false;
    }
}

/// Puts each object in place of the one of its ID.
fn put_all<S: Store>(store: &mut S, entries: Vec<(ObjectId, Object<Vec<u8>>)>)
    requires { AreReplacements (S.contents store.old) (map seen_entry entries.items) }
    ensures { S.contents store.new ≡ with_objects_put (S.contents store.old) (map seen_entry entries.items) }
{
    let mut entries = entries;
    while let Some((id, object)) = entries.pop() {
        put(store, id, object);
    }
}

/// Replaces the object of an ID, if there is one.
fn put<S: Store>(store: &mut S, id: ObjectId, object: Object<Vec<u8>>)
    ensures { S.contents store.new ≡ with_object (S.contents store.old) id (seen object) }
{
    match store.get_mut(id) {
        Some(place) => *place = object,
        None => {}
    }
}

/// Copies of the objects of an update, in its order.
fn copies(alloc: Global, update: &Pool<'_>) -> Result<Vec<(ObjectId, Object<Vec<u8>>)>, AllocError>
    ensures { IfOk result (λ entries. map seen_entry entries.items ≡ update.now) }
{
    let objects = update.objects();
    let mut entries = Vec::with_capacity(alloc, objects.len())?;
    for (id, object) in objects {
        entries.push((*id, object.copied(alloc)?))?;
    }
    Ok(entries)
}

/// Whether each object of an update replaces one with the same kind, macros and references.
fn all_replace<S: Store>(store: &S, update: &Pool<'_>) -> bool
    ensures { IsTrue result → AreReplacements (S.contents store.now) update.now }
{
    for (id, object) in update.objects() {
        if !replaces(store, *id, object) {
            return false;
        }
    }
    true
}

fn replaces<S: Store>(store: &S, id: ObjectId, object: &Object<&[u8]>) -> bool
    ensures { IsTrue result → Replaces (S.contents store.now) (id, seen object.now) }
{
    match store.get(id) {
        None => false,
        Some(old) => has_same_shape(object, old) && have_same_ids(slots(object), slots(old)),
    }
}

/// Whether two objects have the same kind, macro entries and macro bytes.
fn has_same_shape(new: &Object<&[u8]>, old: &Object<Vec<u8>>) -> bool
    ensures { IsTrue result → fixed (seen new.now) ≡ fixed (seen old.now) }
{
    if new.kind() != old.kind() {
        return false;
    }
    if new.macros() != old.macros() {
        return false;
    }
    macro_bytes(new) == macro_bytes(old)
}

/// The bytes of a macro; empty for other kinds.
fn macro_bytes<B: AsSlice<u8>>(object: &Object<B>) -> &[u8]
    ensures { result.now ≡ macro_bytes (seen object.now) }
{
    let Object::Macro(o) = object else {
        return &[];
    };
    o.bytes.as_slice()
}

/// Whether slots have the same IDs, in the same order.
fn have_same_ids(left: Slots<'_>, right: Slots<'_>) -> bool
    ensures { IsTrue result → ids_of_slots left.entry ≡ ids_of_slots right.entry }
{
    let mut others = right;
    for slot in left {
        let Some(other) = others.next() else {
            return false;
        };
        if slot.id != other.id {
            return false;
        }
    }
    others.next().is_none()
}

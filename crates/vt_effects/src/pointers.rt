//! Tests whether a pointer's value is allowed by all references to the pointer.

ghost use Rattle.std.specs.Prelude.{◌≡◌, true, None, slice_get};
ghost use Rattle.std.specs.Option.{option_to_list};
ghost use Rattle.std.specs.List.{list_all, flat_map};
ghost use Rattle.std.specs.FinMap as finite;
ghost use Rattle.vt_kinds.specs.Ids.{null_id};
ghost use Rattle.vt_kinds.specs.Records.{seen};
ghost use Rattle.vt_kinds.specs.References.{slots_of};
ghost use Rattle.vt_effects.specs.Effects as effects;
ghost use Rattle.vt_effects.specs.Replacements as replacements;
ghost use Rattle.vt_effects.specs.Replacements.{IsOfThatKind};
ghost use Rattle.vt_effects.specs.Soundness.{IsSound};

use crate::execution::kind_in;
use crate::references::is_one_of;
use vt_kinds::{Kind, Object, ObjectId, Slot, slots};
use vt_stores::Store;

/// A value of a pointer, and the kind of the value's object.
#[derive(Clone, Copy, PartialEq, Eq)]
pub(crate) struct Pointed {
    /// The pointer.
    pub(crate) pointer: ObjectId,
    /// The value.
    pub(crate) value: ObjectId,
    /// The kind of the value's object, or `None` if it is missing.
    pub(crate) kind: Option<Kind>,
}

/// Whether all references to a pointer allow a value. True if the value has the kind of the pointer's present value;
/// otherwise tests each reference.
pub(crate) fn places_allow<S: Store>(store: &S, pointer: ObjectId, value: ObjectId) -> bool
    requires { IsSound (S.contents store.now) }
    ensures { result ≡ effects.places_allow (S.contents store.now) pointer value }
{
    let kind = kind_in(store, value);
    let pointed = Pointed {
        pointer,
        value,
        kind,
    };
    has_that_kind(store, &pointed) || all_allow(store, &pointed)
}

/// Whether the pointer's present value has the same kind.
fn has_that_kind<S: Store>(store: &S, pointed: &Pointed) -> bool
    ensures kind { result ≡ true → IsOfThatKind (S.contents store.now) pointed.now }
    ensures named { result ≡ true → finite.get (S.contents store.now) null_id ≡ None }
{
    let Some(Object::ObjectPointer(pointer)) = store.get(pointed.pointer) else {
        return false;
    };
    if pointer.value.is_null() {
        return false;
    }
    kind_in(store, pointer.value) == pointed.kind
}

fn all_allow<S: Store>(store: &S, pointed: &Pointed) -> bool
    ensures { result ≡ list_all (replacements.slot_allows pointed.now) (effects.all_slots (S.contents store.now)) }
{
    for index in 0..store.count() {
        if !entry_allows(store, index, pointed) {
            return false;
        }
    }
    true
}

fn entry_allows<S: Store>(store: &S, index: usize, pointed: &Pointed) -> bool
    ensures { result ≡ list_all (replacements.slot_allows pointed.now) (flat_map (λ e. slots_of e.1) (option_to_list (slice_get (finite.entries (S.contents store.now)) index))) }
{
    match store.entry_at(index) {
        Some((_, object)) => slots_allow(object, pointed),
        None => true,
    }
}

fn slots_allow(object: &Object<Vec<u8>>, pointed: &Pointed) -> bool
    ensures { result ≡ list_all (replacements.slot_allows pointed.now) (slots_of (seen object.now)) }
{
    for slot in slots(object) {
        if !slot_allows(&slot, pointed) {
            return false;
        }
    }
    true
}

fn slot_allows(slot: &Slot, pointed: &Pointed) -> bool
    ensures { result ≡ replacements.slot_allows pointed.now slot.now }
{
    if slot.id != pointed.pointer || pointed.value.is_null() {
        return true;
    }
    is_one_of(slot.kinds, pointed.kind)
}

//! The search for an object that a mask shows.

ghost use Rattle.std.specs.Prelude.{◌≡◌, ◌<◌, ◌∷◌, ◌++◌, ℕ, [], false, true, length, map, slice_get, slice_index_or, IfNone, IfSome, IsTrue, None, Some};
ghost use Rattle.std.specs.Option.{option_to_list};
ghost use Rattle.std.specs.FinMap as finite;
ghost use Rattle.vt_kinds.specs.Ids.{null_id};
ghost use Rattle.vt_kinds.specs.Records.{Seen, seen};
ghost use Rattle.vt_stores.specs.Stores.{IsPlace};
ghost use Rattle.vt_chains.specs.Depths.{ids_of, inclusions_of, IsBelow, IsIdAt};
ghost use Rattle.vt_chains.specs.Certificates.{IsCertificate};
ghost use Rattle.vt_shown.specs.ShownMarks.{AreShown, AreSomeShown, Searched, MarksShown};
ghost use Rattle.vt_shown.specs.ShownElements as showing;
ghost use Rattle.vt_shown.specs.ShownElements.{drawn_in, ids_in, soft_keys, resolves_to, keys_of, IsResolved};

use crate::showing::{is_element, number_shown, resolve};
use crate::soft_keys::soft_key_mask;
use vt_chains::{TERMINAL_LIMITS, entry};
use vt_kinds::{Child, InputList, Object, ObjectId};
use vt_stores::Store;

/// A level above those of all objects.
const ABOVE_ALL: u8 = TERMINAL_LIMITS.inclusions + 1;

/// Searches a mask's drawing, however long, and its soft keys for the object at the index `sought`. Returns true when it
/// reaches the object; the mask then shows each marked object. Returns false if the mask does not show it; the marked
/// objects are then all that the mask shows. This is also so for an index past the last object. `levels` has the level of
/// each object (`Levels::as_slice`), and `marks` a mark for each object, at its index; former marks are cleared.
/// docs/PROFILE.md, "The drawing".
pub fn search_shown<S: Store>(
    store: &S,
    levels: &[u8],
    marks: &mut [bool],
    mask: ObjectId,
    sought: usize,
) -> bool
    requires levels { IsCertificate (ids_of (S.contents store.now)) (inclusions_of (S.contents store.now)) levels.now }
    requires marks { length marks.old ≡ length (ids_of (S.contents store.now)) }
    ensures some { AreSomeShown (S.contents store.now) mask marks.new }
    ensures found { result ≡ slice_index_or marks.new sought false }
    ensures all { result ≡ false → AreShown (S.contents store.now) mask marks.new }
{
    marks.fill(false);
    let keys = soft_key_mask(store, mask);
    if search_mask(store, levels, marks, mask, sought) {
        return true;
    }
    search_soft_keys(store, levels, marks, keys, sought)
}

/// Searches the drawing of a mask.
fn search_mask<S: Store>(
    store: &S,
    levels: &[u8],
    marks: &mut [bool],
    mask: ObjectId,
    sought: usize,
) -> bool
    requires levels { IsCertificate (ids_of (S.contents store.now)) (inclusions_of (S.contents store.now)) levels.now }
    requires marks { length marks.old ≡ length (ids_of (S.contents store.now)) }
    requires null { finite.get (S.contents store.now) null_id ≡ None }
    ensures shown { MarksShown (S.contents store.now) (drawn_in (S.contents store.now) (finite.get (S.contents store.now) mask)) marks.old marks.new }
    ensures found { result ≡ true → slice_index_or marks.new sought false ≡ true }
    ensures not_found { result ≡ false → slice_index_or marks.new sought false ≡ slice_index_or marks.old sought false }
    ensures all { result ≡ false → Searched (S.contents store.now) (drawn_in (S.contents store.now) (finite.get (S.contents store.now) mask)) marks.old marks.new }
{
    match store.place(mask) {
        Some(index) => search_drawing(store, levels, marks, index, sought),
        None => false,
    }
}

/// Searches the keys of a soft key mask.
fn search_soft_keys<S: Store>(
    store: &S,
    levels: &[u8],
    marks: &mut [bool],
    keys: ObjectId,
    sought: usize,
) -> bool
    requires levels { IsCertificate (ids_of (S.contents store.now)) (inclusions_of (S.contents store.now)) levels.now }
    requires marks { length marks.old ≡ length (ids_of (S.contents store.now)) }
    requires null { finite.get (S.contents store.now) null_id ≡ None }
    ensures shown { MarksShown (S.contents store.now) (keys_of (finite.get (S.contents store.now) keys)) marks.old marks.new }
    ensures found { result ≡ true → slice_index_or marks.new sought false ≡ true }
    ensures not_found { result ≡ false → slice_index_or marks.new sought false ≡ slice_index_or marks.old sought false }
    ensures all { result ≡ false → Searched (S.contents store.now) (keys_of (finite.get (S.contents store.now) keys)) marks.old marks.new }
{
    let Some(Object::SoftKeyMask(o)) = store.get(keys) else {
        return false;
    };
    search_keys(store, levels, marks, o.keys.as_slice(), sought)
}

/// Searches soft keys.
fn search_keys<S: Store>(
    store: &S,
    levels: &[u8],
    marks: &mut [bool],
    keys: &[ObjectId],
    sought: usize,
) -> bool
    requires levels { IsCertificate (ids_of (S.contents store.now)) (inclusions_of (S.contents store.now)) levels.now }
    requires marks { length marks.old ≡ length (ids_of (S.contents store.now)) }
    requires null { finite.get (S.contents store.now) null_id ≡ None }
    ensures shown { MarksShown (S.contents store.now) keys.now marks.old marks.new }
    ensures found { result ≡ true → slice_index_or marks.new sought false ≡ true }
    ensures not_found { result ≡ false → slice_index_or marks.new sought false ≡ slice_index_or marks.old sought false }
    ensures all { result ≡ false → Searched (S.contents store.now) keys.now marks.old marks.new }
{
    for key in keys {
        if search_id(store, levels, marks, *key, ABOVE_ALL, sought) {
            return true;
        }
    }
    false
}

/// Searches the elements that the object at an index draws.
#[cycle(search)]
fn search_drawing<S: Store>(
    store: &S,
    levels: &[u8],
    marks: &mut [bool],
    index: usize,
    sought: usize,
) -> bool
    requires levels { IsCertificate (ids_of (S.contents store.now)) (inclusions_of (S.contents store.now)) levels.now }
    requires marks { length marks.old ≡ length (ids_of (S.contents store.now)) }
    requires index { index < length levels.now }
    requires null { finite.get (S.contents store.now) null_id ≡ None }
    ensures shown { (id : ℕ) → IsIdAt (ids_of (S.contents store.now)) index id → MarksShown (S.contents store.now) (drawn_in (S.contents store.now) (finite.get (S.contents store.now) id)) marks.old marks.new }
    ensures found { result ≡ true → slice_index_or marks.new sought false ≡ true }
    ensures not_found { result ≡ false → slice_index_or marks.new sought false ≡ slice_index_or marks.old sought false }
    ensures all { result ≡ false → (id : ℕ) → IsIdAt (ids_of (S.contents store.now)) index id → Searched (S.contents store.now) (drawn_in (S.contents store.now) (finite.get (S.contents store.now) id)) marks.old marks.new }
{
    let (_, object) = entry(store, index);
    let level = levels[index];
    let (children, item) = drawn_parts(store, object);
    for child in children {
        if search_id(store, levels, marks, child.id, level, sought) {
            return true;
        }
    }
    match item {
        Some(item) => search_id(store, levels, marks, item, level, sought),
        None => false,
    }
}

/// Searches the element that an ID resolves to, below a level, and the elements within it.
#[cycle(search)]
fn search_id<S: Store>(
    store: &S,
    levels: &[u8],
    marks: &mut [bool],
    id: ObjectId,
    level: u8,
    sought: usize,
) -> bool
    requires levels { IsCertificate (ids_of (S.contents store.now)) (inclusions_of (S.contents store.now)) levels.now }
    requires marks { length marks.old ≡ length (ids_of (S.contents store.now)) }
    requires null { finite.get (S.contents store.now) null_id ≡ None }
    requires below { (element : ℕ) → IsResolved (S.contents store.now) (id ∷ []) element → IsBelow (ids_of (S.contents store.now)) levels.now element level }
    ensures shown { MarksShown (S.contents store.now) (id ∷ []) marks.old marks.new }
    ensures found { result ≡ true → slice_index_or marks.new sought false ≡ true }
    ensures not_found { result ≡ false → slice_index_or marks.new sought false ≡ slice_index_or marks.old sought false }
    ensures all { result ≡ false → Searched (S.contents store.now) (id ∷ []) marks.old marks.new }
{
    let Some(index) = element_index(store, id) else {
        return false;
    };
    if marks[index] {
        return false;
    }
    marks[index] = true;
    if index == sought {
        return true;
    }
    search_drawing(store, levels, marks, index, sought)
}

/// The children that an object draws, and the current item of an input list.
fn drawn_parts<'a, S: Store>(
    store: &S,
    object: &'a Object<Vec<u8>>,
) -> (&'a [Child], Option<ObjectId>)
    ensures { drawn_in (S.contents store.now) (Some (seen object.now)) ≡ ids_in result.0.now ++ option_to_list result.1 }
{
    match object {
        Object::WorkingSet(o) => (o.children.as_slice(), None),
        Object::DataMask(o) => (o.children.as_slice(), None),
        Object::AlarmMask(o) => (o.children.as_slice(), None),
        Object::Container(o) if o.hidden == 0 => (o.children.as_slice(), None),
        Object::Key(o) => (o.children.as_slice(), None),
        Object::Button(o) => (o.children.as_slice(), None),
        Object::InputList(o) => (&[], current_item(store, o)),
        _ => (&[], None),
    }
}

/// The current item of an input list, if there is one.
fn current_item<S: Store>(store: &S, list: &InputList) -> Option<ObjectId>
    ensures { option_to_list result ≡ showing.item_of list.now.items (showing.number_shown (S.contents store.now) list.now.variable list.now.value) }
{
    let index = number_shown(store, list.variable, u32::from(list.value))?;
    list.items.as_slice().get(index as usize).copied()
}

/// The index of the element that an ID resolves to, directly or through a pointer, if it is an element.
fn element_index<S: Store>(store: &S, id: ObjectId) -> Option<usize>
    ensures some { IfSome result (λ index. (element : ℕ) × IsIdAt (ids_of (S.contents store.now)) index element × IsResolved (S.contents store.now) (id ∷ []) element) }
    ensures none { IfNone result ((element : ℕ) → IsResolved (S.contents store.now) (id ∷ []) element → ⊥) }
{
    match direct_index(store, id) {
        Some(index) => Some(index),
        None => index_behind(store, id),
    }
}

/// The index of an element that an ID refers to directly, as nearly all IDs do. `None` for other IDs.
fn direct_index<S: Store>(store: &S, id: ObjectId) -> Option<usize>
    ensures { IfSome result (λ index. IsPlace (finite.entries (S.contents store.now)) id index
        × IsTrue (showing.is_element (finite.get (S.contents store.now) id))
        × (resolves_to (S.contents store.now) id ≡ Some id)) }
{
    let index = store.place(id)?;
    if is_element_at(store, index) {
        return Some(index);
    }
    None
}

/// Whether the object at an index of the store is an element.
fn is_element_at<S: Store>(store: &S, index: usize) -> bool
    ensures { (entry : ℕ × Seen) → slice_get (finite.entries (S.contents store.now)) index ≡ Some entry → result ≡ showing.is_element (Some entry.1) }
{
    match store.entry_at(index) {
        Some((_, object)) => is_element(object),
        None => false,
    }
}

/// Like `element_index`, but looks the object up first: for pointers, hidden containers and missing IDs.
fn index_behind<S: Store>(store: &S, id: ObjectId) -> Option<usize>
    ensures some { IfSome result (λ index. (element : ℕ) × IsIdAt (ids_of (S.contents store.now)) index element × IsResolved (S.contents store.now) (id ∷ []) element) }
    ensures none { IfNone result ((element : ℕ) → IsResolved (S.contents store.now) (id ∷ []) element → ⊥) }
{
    let Some(found) = resolve(store, id) else {
        return None;
    };
    if !is_element(found.1) {
        return None;
    }
    store.place(found.0)
}

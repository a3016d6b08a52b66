//! Tests of the references of all slots.

ghost use Rattle.std.specs.Prelude.{◌≡◌, None, Some, IsTrue};
ghost use Rattle.std.specs.Option.{option_to_list};
ghost use Rattle.std.specs.List.{flat_map};
ghost use Rattle.vt_kinds.specs.Records.{seen};
ghost use Rattle.vt_verify.specs.Lists.{first_failing};
ghost use Rattle.vt_stores.specs.Shapes.{shape_of};
ghost use Rattle.vt_stores.specs.Stores.{AreStored, object_at};
ghost use Rattle.vt_verify.specs.References.{is_there, fits, slot_references, pointed, with_value, slot_values};
ghost use Rattle.vt_verify.specs.Rules as rules;

use crate::reference::{Reference, Test, may_refer};
use vt_objects::{Object, ObjectId, SortedStore, Store, slots};

/// Whether the objects of all slots exist and fit, and the values of referenced pointers fit too. Looks up each object
/// once.
pub(crate) fn all_pass(objects: &SortedStore) -> bool
    ensures there { IsTrue result → rules.missing objects.now ≡ None }
    ensures fit { IsTrue result → rules.wrong_kind objects.now ≡ None }
{
    for (id, object) in objects.entries() {
        if !all_pass_in(objects, *id, object) {
            return false;
        }
    }
    true
}

fn all_pass_in(objects: &SortedStore, parent: ObjectId, object: &Object<Vec<u8>>) -> bool
    requires { AreStored objects.now }
    ensures there { IsTrue result → first_failing (is_there (shape_of objects.now)) (slot_references (parent, seen object.now)) ≡ None }
    ensures fit { IsTrue result → first_failing (fits (shape_of objects.now)) (slot_values objects.now (parent, seen object.now)) ≡ None }
{
    for slot in slots(object) {
        if !passes_both(objects, Reference::of_slot(parent, &slot)) {
            return false;
        }
    }
    true
}

fn passes_both(objects: &SortedStore, reference: Reference) -> bool
    requires { AreStored objects.now }
    ensures there { IsTrue result → IsTrue (is_there (shape_of objects.now) reference) }
    ensures fit { IsTrue result → first_failing (fits (shape_of objects.now)) (with_value objects.now reference) ≡ None }
{
    if reference.id.is_null() {
        return reference.may_be_null;
    }
    match objects.get(reference.id) {
        None => false,
        Some(object) => {
            may_refer(reference.kinds, reference.id, object.kind())
                && value_fits(objects, reference, object)
        }
    }
}

/// Whether the value of a referenced pointer fits; true for objects of other kinds.
fn value_fits(objects: &SortedStore, reference: Reference, object: &Object<Vec<u8>>) -> bool
    ensures { IsTrue result → first_failing (fits (shape_of objects.now)) (pointed reference (Some (seen object.now))) ≡ None }
{
    let Object::ObjectPointer(pointer) = object else {
        return true;
    };
    let value = Reference {
        id: pointer.value,
        ..reference
    };
    value.passes(Test::Fits, objects)
}

/// The first slot, by rising ID, that refers to a missing object.
pub(crate) fn missing(objects: &SortedStore) -> Option<Reference>
    ensures { result ≡ rules.missing objects.now }
{
    for (id, object) in objects.entries() {
        if let Some(reference) = missing_in(objects, *id, object) {
            return Some(reference);
        }
    }
    None
}

fn missing_in(
    objects: &SortedStore,
    parent: ObjectId,
    object: &Object<Vec<u8>>,
) -> Option<Reference>
    ensures { result ≡ first_failing (is_there (shape_of objects.now)) (slot_references (parent, seen object.now)) }
{
    for slot in slots(object) {
        let reference = Reference::of_slot(parent, &slot);
        if !reference.passes(Test::IsThere, objects) {
            return Some(reference);
        }
    }
    None
}

/// The first slot, by rising ID, that refers to an object of a wrong kind or to a pointer to such an object.
pub(crate) fn wrong_kind(objects: &SortedStore) -> Option<Reference>
    ensures { result ≡ rules.wrong_kind objects.now }
{
    for (id, object) in objects.entries() {
        if let Some(reference) = wrong_kind_in(objects, *id, object) {
            return Some(reference);
        }
    }
    None
}

fn wrong_kind_in(
    objects: &SortedStore,
    parent: ObjectId,
    object: &Object<Vec<u8>>,
) -> Option<Reference>
    ensures { result ≡ first_failing (fits (shape_of objects.now)) (slot_values objects.now (parent, seen object.now)) }
{
    for slot in slots(object) {
        if let Some(reference) = wrong_or_points_wrong(objects, Reference::of_slot(parent, &slot)) {
            return Some(reference);
        }
    }
    None
}

/// The reference if it does not fit, or else the reference to its pointer's value if that does not fit.
fn wrong_or_points_wrong(objects: &SortedStore, reference: Reference) -> Option<Reference>
    ensures { result ≡ first_failing (fits (shape_of objects.now)) (with_value objects.now reference) }
{
    if !reference.passes(Test::Fits, objects) {
        return Some(reference);
    }
    match pointed(objects, reference) {
        None => None,
        Some(value) if value.passes(Test::Fits, objects) => None,
        value => value,
    }
}

/// The reference to the value of a referenced pointer.
pub fn pointed(objects: &SortedStore, reference: Reference) -> Option<Reference>
    ensures { option_to_list result ≡ pointed reference (object_at objects.now reference.id) }
{
    let Object::ObjectPointer(pointer) = objects.get(reference.id)? else {
        return None;
    };
    Some(Reference {
        id: pointer.value,
        ..reference
    })
}

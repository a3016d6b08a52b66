//! Rules 3 and 4: the references of slots.

ghost use Rattle.std.specs.Prelude.{◌≡◌, [], ◌∷◌, ◌++◌, IfOk, OnOk};
ghost use Rattle.vt_kinds.specs.Records.{seen};
ghost use Rattle.vt_stores.specs.Shapes.{shape_of};
ghost use Rattle.check_inspect.specs.Lists.{all_failing};
ghost use Rattle.check_inspect.specs.References.{at_spot, passes_at, slot_at, slots_at, pointed_at, values_at, slot_values_at, missing_at, wrong_kinds_at};

use crate::finding::{ReferenceAt, Spot};
use std::alloc::{AllocError, Global};
use vt_objects::{Object, ObjectId, Place, Slot, SortedStore, slots};
use vt_verify::{Reference, Test, pointed};

/// The slots, by rising ID, that refer to a missing object.
pub(crate) fn missing(alloc: Global, objects: &SortedStore) -> Result<Vec<ReferenceAt>, AllocError>
    ensures { IfOk result (λ found. found.items ≡ missing_at objects.now) }
{
    let mut found = Vec::new(alloc);
    for (id, object) in objects.entries() {
        put_missing(objects, *id, object, &mut found)?;
    }
    Ok(found)
}

fn put_missing(
    objects: &SortedStore,
    parent: ObjectId,
    object: &Object<Vec<u8>>,
    found: &mut Vec<ReferenceAt>,
) -> Result<(), AllocError>
    ensures { OnOk result (found.new.items ≡ found.old.items ++ all_failing (passes_at Test.IsThere (shape_of objects.now)) (slots_at (parent, seen object.now))) }
{
    for slot in slots(object) {
        put_slot(objects, parent, &slot, Test::IsThere, found)?;
    }
    Ok(())
}

/// Appends a slot that fails a test.
fn put_slot(
    objects: &SortedStore,
    parent: ObjectId,
    slot: &Slot,
    test: Test,
    found: &mut Vec<ReferenceAt>,
) -> Result<(), AllocError>
    ensures { OnOk result (found.new.items ≡ found.old.items ++ all_failing (passes_at test (shape_of objects.now)) (slot_at parent slot.now ∷ [])) }
{
    let spot = Spot::Slot(slot.place);
    put_failing(objects, Reference::of_slot(parent, slot), spot, test, found)
}

/// The slots, by rising ID, that refer to an object of a wrong kind, and those that refer to a pointer to such an object.
pub(crate) fn wrong_kinds(
    alloc: Global,
    objects: &SortedStore,
) -> Result<Vec<ReferenceAt>, AllocError>
    ensures { IfOk result (λ found. found.items ≡ wrong_kinds_at objects.now) }
{
    let mut found = Vec::new(alloc);
    for (id, object) in objects.entries() {
        put_wrong_kinds(objects, *id, object, &mut found)?;
    }
    Ok(found)
}

fn put_wrong_kinds(
    objects: &SortedStore,
    parent: ObjectId,
    object: &Object<Vec<u8>>,
    found: &mut Vec<ReferenceAt>,
) -> Result<(), AllocError>
    ensures { OnOk result (found.new.items ≡ found.old.items ++ all_failing (passes_at Test.Fits (shape_of objects.now)) (slot_values_at objects.now (parent, seen object.now))) }
{
    for slot in slots(object) {
        put_wrong_kind(objects, parent, &slot, found)?;
    }
    Ok(())
}

/// Appends a slot that refers to an object of a wrong kind, and the value of the pointer that it refers to, if that is of
/// a wrong kind.
fn put_wrong_kind(
    objects: &SortedStore,
    parent: ObjectId,
    slot: &Slot,
    found: &mut Vec<ReferenceAt>,
) -> Result<(), AllocError>
    ensures { OnOk result (found.new.items ≡ found.old.items ++ all_failing (passes_at Test.Fits (shape_of objects.now)) (values_at objects.now parent slot.now)) }
{
    put_slot(objects, parent, slot, Test::Fits, found)?;
    put_pointed(objects, Reference::of_slot(parent, slot), slot.place, found)
}

/// Appends the value of the pointer that a slot refers to, if it is of a wrong kind.
fn put_pointed(
    objects: &SortedStore,
    reference: Reference,
    place: Place,
    found: &mut Vec<ReferenceAt>,
) -> Result<(), AllocError>
    ensures { OnOk result (found.new.items ≡ found.old.items ++ all_failing (passes_at Test.Fits (shape_of objects.now)) (pointed_at objects.now place reference)) }
{
    let pointer = reference.id;
    match pointed(objects, reference) {
        Some(value) => {
            let spot = Spot::Through { place, pointer };
            put_failing(objects, value, spot, Test::Fits, found)
        }
        None => Ok(()),
    }
}

/// Appends a reference that fails a test.
pub(crate) fn put_failing(
    objects: &SortedStore,
    reference: Reference,
    spot: Spot,
    test: Test,
    found: &mut Vec<ReferenceAt>,
) -> Result<(), AllocError>
    ensures { OnOk result (found.new.items ≡ found.old.items ++ all_failing (passes_at test (shape_of objects.now)) (at_spot spot reference ∷ [])) }
{
    if !reference.passes(test, objects) {
        found.push(ReferenceAt { reference, spot })?;
    }
    Ok(())
}

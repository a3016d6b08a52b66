//! The differences of two pools.

ghost use Rattle.std.specs.Prelude.{◌≡◌, ◌++◌, IfOk, OnOk};
ghost use Rattle.std.specs.List.{flat_map};
ghost use Rattle.vt_kinds.specs.Records.{record_of, seen};
ghost use Rattle.vt_stores.specs.Stores.{object_at};
ghost use Rattle.check_needs.specs.Differences as spec;

use std::alloc::{AllocError, Global};
use vt_objects::{Object, ObjectId, SortedStore, Store};
use vt_pool::write_object;

/// A difference of two pools, by an ID.
#[derive(Clone, Copy, PartialEq, Eq)]
pub enum PoolDifference {
    /// Only the old pool has the object.
    Removed { id: ObjectId },
    /// The objects are of different kinds.
    OtherKind { id: ObjectId },
    /// The objects are of one kind and have different records.
    Changed { id: ObjectId },
    /// Only the new pool has the object.
    Added { id: ObjectId },
}

/// The differences of two pools: the removed and changed objects by rising ID, and then the added ones.
pub fn compare(
    alloc: Global,
    old: &SortedStore,
    new: &SortedStore,
) -> Result<Vec<PoolDifference>, AllocError>
    ensures { IfOk result (λ found. found.items ≡ spec.differences_of old.now new.now) }
{
    let mut found = Vec::new(alloc);
    put_kept(alloc, old, new, &mut found)?;
    put_added(old, new, &mut found)?;
    Ok(found)
}

/// Appends the removed and the changed objects.
fn put_kept(
    alloc: Global,
    old: &SortedStore,
    new: &SortedStore,
    found: &mut Vec<PoolDifference>,
) -> Result<(), AllocError>
    ensures { OnOk result (found.new.items ≡ found.old.items ++ flat_map (λ e. spec.kept_or_removed e.0 e.1 (object_at new.now e.0)) old.now) }
{
    for (id, object) in old.entries() {
        match new.get(*id) {
            None => found.push(PoolDifference::Removed { id: *id })?,
            Some(other) => put_compared(alloc, *id, object, other, found)?,
        }
    }
    Ok(())
}

/// Appends the difference of two objects of one ID, if there is one.
fn put_compared(
    alloc: Global,
    id: ObjectId,
    old: &Object<Vec<u8>>,
    new: &Object<Vec<u8>>,
    found: &mut Vec<PoolDifference>,
) -> Result<(), AllocError>
    ensures { OnOk result (found.new.items ≡ found.old.items ++ spec.compared id (seen old.now) (seen new.now)) }
{
    if !are_of_one_kind(old, new) {
        found.push(PoolDifference::OtherKind { id })?;
    } else if !are_equal(alloc, old, new)? {
        found.push(PoolDifference::Changed { id })?;
    }
    Ok(())
}

fn are_of_one_kind(old: &Object<Vec<u8>>, new: &Object<Vec<u8>>) -> bool
    ensures { result ≡ spec.are_of_one_kind (seen old.now) (seen new.now) }
{
    old.kind().number() == new.kind().number()
}

/// Whether two objects have equal records under one ID.
fn are_equal(
    alloc: Global,
    old: &Object<Vec<u8>>,
    new: &Object<Vec<u8>>,
) -> Result<bool, AllocError>
    ensures { IfOk result (λ equal. equal ≡ spec.are_equal (seen old.now) (seen new.now)) }
{
    let first = record_of(alloc, old)?;
    let second = record_of(alloc, new)?;
    Ok(first.as_slice() == second.as_slice())
}

/// The record of an object under the ID 0, by which objects of two IDs can be compared.
pub fn record_of(alloc: Global, object: &Object<Vec<u8>>) -> Result<Vec<u8>, AllocError>
    ensures { IfOk result (λ bytes. bytes.items ≡ record_of 0 (seen object.now)) }
{
    let mut record = Vec::new(alloc);
    write_object(alloc, ObjectId::from_raw(0), object, &mut record)?;
    Ok(record)
}

/// Appends the added objects.
fn put_added(
    old: &SortedStore,
    new: &SortedStore,
    found: &mut Vec<PoolDifference>,
) -> Result<(), AllocError>
    ensures { OnOk result (found.new.items ≡ found.old.items ++ flat_map (λ e. spec.added e.0 (object_at old.now e.0)) new.now) }
{
    for (id, _) in new.entries() {
        if old.get(*id).is_none() {
            found.push(PoolDifference::Added { id: *id })?;
        }
    }
    Ok(())
}

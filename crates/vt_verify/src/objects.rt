//! The objects of a pool or of an updated store, copied or taken over, by rising ID.

ghost use Rattle.std.specs.Prelude.{◌≡◌, IfOk, OnOk, map};
ghost use Rattle.std.specs.FinMap as finite;
ghost use Rattle.vt_kinds.specs.Records.{seen};
ghost use Rattle.vt_stores.specs.Stores.{seen_entry, by_rising_id, AreStored};
ghost use Rattle.vt_pool.specs.Pools.{AreObjects, contents};
ghost use Rattle.vt_stores.specs.Shapes.{kind_at, shape_of};
ghost use Rattle.vt_verify.specs.Updates.{updated, unless};

use std::alloc::{AllocError, Global};
use vt_chains::entry;
use vt_objects::{Kind, Object, ObjectId, SortedStore, Store};
use vt_pool::Pool;

/// Copies of the objects of a pool, by rising ID.
pub(crate) fn sorted(alloc: Global, pool: &Pool<'_>) -> Result<SortedStore, AllocError>
    ensures made { IfOk result (λ objects. objects ≡ by_rising_id pool.now) }
    ensures stored { IfOk result AreStored }
{
    let entries = copies(alloc, pool)?;
    let objects = SortedStore::from_vec(entries)?;
    Ok(objects)
}

/// The objects of a pool, taken over, by rising ID.
pub(crate) fn sorted_owned(alloc: Global, pool: Pool<'_>) -> Result<SortedStore, AllocError>
    ensures made { IfOk result (λ objects. objects ≡ by_rising_id pool.entry) }
    ensures stored { IfOk result AreStored }
{
    let entries = owned(alloc, pool)?;
    let objects = SortedStore::from_vec(entries)?;
    Ok(objects)
}

/// Copies of all objects of an update and of the other objects of a store, by rising ID.
pub(crate) fn updated<S: Store>(
    alloc: Global,
    store: &S,
    update: &Pool<'_>,
) -> Result<SortedStore, AllocError>
    ensures made { IfOk result (λ objects. objects ≡ updated (S.contents store.now) update.now) }
    ensures stored { IfOk result AreStored }
{
    let mut entries = copies(alloc, update)?;
    for place in 0..store.count() {
        let (id, object) = entry(store, place);
        put_unless_updated(alloc, &mut entries, update, id, object)?;
    }
    SortedStore::from_vec(entries)
}

/// Appends a copy of an object, unless the update has an object with its ID.
fn put_unless_updated(
    alloc: Global,
    entries: &mut Vec<(ObjectId, Object<Vec<u8>>)>,
    update: &Pool<'_>,
    id: ObjectId,
    object: &Object<Vec<u8>>,
) -> Result<(), AllocError>
    ensures { OnOk result (map seen_entry entries.new.items ≡ unless (finite.get (contents update.now) id) (map seen_entry entries.old.items) id (seen object.now)) }
{
    if update.get(id).is_none() {
        entries.push((id, object.copied(alloc)?))?;
    }
    Ok(())
}

/// Copies of the objects of a pool, in the order of the pool.
fn copies(alloc: Global, pool: &Pool<'_>) -> Result<Vec<(ObjectId, Object<Vec<u8>>)>, AllocError>
    ensures entries { IfOk result (λ entries. map seen_entry entries.items ≡ pool.now) }
    ensures each { AreObjects pool.now }
{
    let objects = pool.objects();
    let mut entries = Vec::with_capacity(alloc, objects.len())?;
    for (id, object) in objects {
        entries.push((*id, object.copied(alloc)?))?;
    }
    Ok(entries)
}

/// The objects of a pool, taken over, in the order of the pool.
fn owned(alloc: Global, pool: Pool<'_>) -> Result<Vec<(ObjectId, Object<Vec<u8>>)>, AllocError>
    ensures entries { IfOk result (λ entries. map seen_entry entries.items ≡ pool.entry) }
    ensures each { AreObjects pool.entry }
{
    let objects = pool.into_objects();
    let mut entries = Vec::with_capacity(alloc, objects.len())?;
    for (id, object) in objects {
        entries.push((id, object.into_owned(alloc)?))?;
    }
    Ok(entries)
}

/// The kind of an object, or `None` if it is missing.
pub(crate) fn kind_at(objects: &SortedStore, id: ObjectId) -> Option<Kind>
    ensures { result ≡ kind_at (shape_of objects.now) id }
{
    match objects.get(id) {
        None => None,
        Some(object) => Some(object.kind()),
    }
}

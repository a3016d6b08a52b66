//! The objects in force.

ghost use Rattle.std.specs.Prelude.{◌≡◌, map, nat_eq, IfOk};
ghost use Rattle.indexmap.specs.IndexMap.{get};
ghost use Rattle.vt_stores.specs.Stores.{AreStored};
ghost use Rattle.check_reading.specs.Readings.{NamesObjects, found_at, or_zero, objects_of, record_by, record_in, replaced_in};

use crate::pool_reading::{ObjectRecord, ReplacedRecord};
use crate::records::FoundRecord;
use indexmap::IndexMap;
use std::alloc::{AllocError, Global};
use vt_objects::{ObjectId, SortedStore};

/// The objects in force, their records by rising ID, and the replaced records in the order of their bytes.
#[derive(Drop)]
pub(crate) struct InForce {
    pub(crate) objects: SortedStore,
    pub(crate) records: Vec<ObjectRecord>,
    pub(crate) replaced: Vec<ReplacedRecord>,
}

/// The objects in force after these records: a later record of an ID replaces the earlier one.
pub(crate) fn in_force(alloc: Global, found: Vec<FoundRecord>) -> Result<InForce, AllocError>
    requires { NamesObjects (map found_at found.items) }
    ensures objects { IfOk result (λ r. r.objects ≡ objects_of (map found_at found.items)) }
    ensures records { IfOk result (λ r. r.records.items ≡ map (record_in (map found_at found.items)) r.objects) }
    ensures replaced { IfOk result (λ r. r.replaced.items ≡ replaced_in (map found_at found.items)) }
    ensures stored { IfOk result (λ r. AreStored r.objects) }
{
    let mut found = found;
    let mut places = IndexMap::new(alloc);
    let mut entries = Vec::with_capacity(alloc, found.len())?;
    let mut replaced = Vec::new(alloc);
    // The last record first.
    while let Some(record) = found.pop() {
        match places.get(&record.id) {
            Some(by) => replaced.push(ReplacedRecord {
                id: record.id,
                kind: record.object.kind(),
                at: record.at,
                by: *by,
            })?,
            None => {
                places.insert(record.id, record.at)?;
                entries.push((record.id, record.object))?;
            }
        }
    }
    replaced.reverse();
    let objects = SortedStore::from_vec(entries)?;
    let records = records_of(alloc, &objects, &places)?;
    Ok(InForce {
        objects,
        records,
        replaced,
    })
}

/// The records of objects, by the indices of their first bytes.
fn records_of(
    alloc: Global,
    objects: &SortedStore,
    places: &IndexMap<ObjectId, usize>,
) -> Result<Vec<ObjectRecord>, AllocError>
    ensures { IfOk result (λ records. records.items ≡ map (record_by (λ id. get nat_eq places.now id)) objects.now) }
{
    let mut records = Vec::with_capacity(alloc, objects.entries().len())?;
    for (id, object) in objects.entries() {
        records.push(ObjectRecord {
            id: *id,
            kind: object.kind(),
            at: place_of(places, *id),
        })?;
    }
    Ok(records)
}

/// The index of an ID's record, or 0.
fn place_of(places: &IndexMap<ObjectId, usize>, id: ObjectId) -> usize
    ensures { result ≡ or_zero (get nat_eq places.now id) }
{
    match places.get(&id) {
        Some(at) => *at,
        None => 0,
    }
}

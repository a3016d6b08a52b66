//! The differences of two pools, with the objects that only have another ID.

use check_needs::{PoolDifference, compare, record_of};
use std::alloc::{AllocError, Global};
use std::collections::BTreeMap;
use vt_objects::{ObjectId, SortedStore, Store};

/// A difference of two pools.
#[derive(Clone, Copy, PartialEq, Eq)]
pub(crate) enum Difference {
    /// Only the old pool has the object.
    Removed { id: ObjectId },
    /// The new pool has the object under another ID, and no other object is like it.
    Renumbered { old: ObjectId, new: ObjectId },
    /// The objects are of different kinds.
    OtherKind { id: ObjectId },
    /// The objects are of one kind and have different records.
    Changed { id: ObjectId },
    /// Only the new pool has the object.
    Added { id: ObjectId },
}

/// The IDs under which one pool has a record that the other does not have under them.
#[derive(Clone, Copy, Default)]
enum Ids {
    #[default]
    None,
    One(ObjectId),
    Several,
}

impl Ids {
    fn with(self, id: ObjectId) -> Ids {
        match self {
            Ids::None => Ids::One(id),
            Ids::One(_) | Ids::Several => Ids::Several,
        }
    }
}

/// The removed and the added objects with one record.
#[derive(Clone, Copy, Default)]
struct Twins {
    removed: Ids,
    added: Ids,
}

/// The removed and the added objects, by their records under one ID.
type Records = BTreeMap<Vec<u8>, Twins>;

/// The differences of two pools, in the order of `compare`. A renumbered object is in the place of the removed one.
pub(crate) fn differences(
    alloc: Global,
    old: &SortedStore,
    new: &SortedStore,
) -> Result<Vec<Difference>, AllocError> {
    let found = compare(alloc, old, new)?;
    let records = records_of(alloc, found.as_slice(), old, new)?;
    let mut told = Vec::with_capacity(alloc, found.len())?;
    for difference in found.iter() {
        match *difference {
            PoolDifference::Removed { id } => told.push(match twin(alloc, &records, old, id)? {
                Some(new) => Difference::Renumbered { old: id, new },
                None => Difference::Removed { id },
            })?,
            PoolDifference::OtherKind { id } => told.push(Difference::OtherKind { id })?,
            PoolDifference::Changed { id } => told.push(Difference::Changed { id })?,
            PoolDifference::Added { id } => {
                if twin(alloc, &records, new, id)?.is_none() {
                    told.push(Difference::Added { id })?;
                }
            }
        }
    }
    Ok(told)
}

/// The records of the removed and the added objects.
fn records_of(
    alloc: Global,
    found: &[PoolDifference],
    old: &SortedStore,
    new: &SortedStore,
) -> Result<Records, AllocError> {
    let mut records = BTreeMap::new(alloc);
    for difference in found {
        match *difference {
            PoolDifference::Removed { id } => {
                if let Some(object) = old.get(id) {
                    let twins = records
                        .entry(record_of(alloc, object)?)?
                        .or_insert(Twins::default());
                    twins.removed = twins.removed.with(id);
                }
            }
            PoolDifference::Added { id } => {
                if let Some(object) = new.get(id) {
                    let twins = records
                        .entry(record_of(alloc, object)?)?
                        .or_insert(Twins::default());
                    twins.added = twins.added.with(id);
                }
            }
            PoolDifference::OtherKind { .. } | PoolDifference::Changed { .. } => {}
        }
    }
    Ok(records)
}

/// The ID that the record of an object has in the new pool, if it is that of one removed and one added object.
fn twin(
    alloc: Global,
    records: &Records,
    objects: &SortedStore,
    id: ObjectId,
) -> Result<Option<ObjectId>, AllocError> {
    let Some(object) = objects.get(id) else {
        return Ok(None);
    };
    let record = record_of(alloc, object)?;
    match records.get(record.as_slice()) {
        Some(
            Twins {
                removed: Ids::One(_),
                added: Ids::One(new),
            },
        ) => Ok(Some(*new)),
        _ => Ok(None),
    }
}

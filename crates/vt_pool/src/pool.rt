//! Pools and their records.

ghost use Rattle.std.specs.Prelude.{◌≡◌, ◌<◌, [], ◌++◌, length, map, slice_set, List, ℕ, IfOk, IfErr, OnOk};
ghost use Rattle.std.specs.Option.{option_map};
ghost use Rattle.std.specs.FinMap as finite;
ghost use Rattle.vt_kinds.specs.Records.{seen, HasRecord};
ghost use Rattle.vt_stores.specs.Stores.{seen_entry};
ghost use Rattle.vt_pool.specs.Pools.{PoolEntry, AreObjects, AreRecords, joined, contents, IsInForce, IsFault, IsWantOfMemory};
ghost use Rattle.vt_records.specs.declared.record_fault.RecordFault.TheVariants as stops;
ghost use Rattle.vt_pool.specs.EntryWrites.{with_entry};

use indexmap::IndexSet;
use std::alloc::Global;
use std::marker::Model;
use vt_kinds::{Object, ObjectId};
use vt_records::{PoolFault, RecordFault, read_record};

/// The objects of a pool with unique IDs, in the order of the IDs' first occurrence. Their texts are slices of the
/// pool's bytes.
pub struct Pool<'a> {
    objects: Vec<(ObjectId, Object<&'a [u8]>)>,
    places: IndexSet<ObjectId>,
}

// Written out, so that the crates above need not prove it again.
impl<'a> Drop for Pool<'a> {
    fn drop(self) {
        let Pool {
            objects: _objects,
            places: _places,
        } = self;
    }
}

impl<'a> Model for Pool<'a> {
    ghost use Rattle.std.specs.Prelude.{◌≡◌, List, map};
    ghost use Rattle.vt_stores.specs.Stores.{seen_entry};
    ghost use Rattle.vt_pool.specs.Pools.{PoolEntry, ids, AreObjects};

    ghost Value = { List PoolEntry };

    ghost view = { λ p. map seen_entry p.objects.items };

    ghost invariant = { λ p. (p.places.keys ≡ ids (map seen_entry p.objects.items)) × AreObjects (map seen_entry p.objects.items) };
}

impl<'a> Pool<'a> {
    fn new(alloc: Global) -> Pool<'a>
        ensures { result ≡ [] }
    {
        Pool {
            objects: Vec::new(alloc),
            places: IndexSet::new(alloc),
        }
    }

    /// The objects in the pool's order. IDs are unique, and none is NULL.
    pub fn objects(&self) -> &[(ObjectId, Object<&'a [u8]>)]
        ensures all { map seen_entry result.now ≡ self.now }
        ensures each { AreObjects self.now }
    {
        &self.objects
    }

    /// Takes the objects out, in the pool's order. IDs are unique, and none is NULL.
    pub fn into_objects(self) -> Vec<(ObjectId, Object<&'a [u8]>)>
        ensures all { map seen_entry result.items ≡ self.entry }
        ensures each { AreObjects self.entry }
    {
        let Pool {
            objects,
            places: _places,
        } = self;
        objects
    }

    /// Returns the object of an ID, or `None`.
    pub fn get(&self, id: ObjectId) -> Option<&Object<&'a [u8]>>
        ensures { option_map (λ o. seen o.now) result ≡ finite.get (contents self.now) id }
    {
        match self.places.get_index_of(&id) {
            None => None,
            Some(place) => Some(&self.objects[place].1),
        }
    }

    /// Replaces the object of an ID, or appends it.
    fn put(&mut self, id: ObjectId, object: Object<&'a [u8]>) -> Result<(), RecordFault>
        requires { HasRecord id (seen object) }
        ensures ok { OnOk result (self.new ≡ with_entry self.old id (seen object.entry)) }
        ensures err { IfErr result (λ stop. stop ≡ stops.OutOfMemory) }
    {
        self.objects.reserve(1)?;
        let (place, is_new) = self.places.insert_full(id)?;
        if is_new {
            self.objects.push((id, object))?;
        } else {
            replace(&mut self.objects, place, (id, object));
        }
        Ok(())
    }
}

/// Replaces the entry at an index.
fn replace<'a>(
    entries: &mut Vec<(ObjectId, Object<&'a [u8]>)>,
    place: usize,
    entry: (ObjectId, Object<&'a [u8]>),
)
    requires { place < length entries.old.items }
    ensures { entries.new.items ≡ slice_set entries.old.items place entry.entry }
{
    entries[place] = entry;
}

/// Reads a pool from records up to the end of the bytes. A later record of an ID replaces the earlier one at its
/// index. An error names the first faulty record.
pub fn read_pool<'a>(alloc: Global, bytes: &'a [u8]) -> Result<Pool<'a>, PoolFault>
    // The bytes are whole records, and the pool has the objects in force after them.
    ensures pool { IfOk result (λ pool. (records : List PoolEntry) × AreRecords records × (bytes.now ≡ joined records) × IsInForce records pool) }
    // Whole records fail only with OutOfMemory.
    ensures only { (records : List PoolEntry) → AreRecords records → bytes.now ≡ joined records → IfErr result IsWantOfMemory }
    // A fault names the first faulty record and its first cause.
    ensures fault { IfErr result (IsFault bytes.now) }
{
    read_records(alloc, bytes)
}

// The loop of `read_pool`, which derives from the faults that whole records are always read.
fn read_records<'a>(alloc: Global, bytes: &'a [u8]) -> Result<Pool<'a>, PoolFault>
    ensures pool { IfOk result (λ pool. (records : List PoolEntry) × AreRecords records × (bytes.now ≡ joined records) × IsInForce records pool) }
    ensures fault { IfErr result (IsFault bytes.now) }
{
    let mut pool = Pool::new(alloc);
    let mut rest = bytes;
    while !rest.is_empty() {
        let at = bytes.len() - rest.len();
        match read_record(alloc, rest) {
            Err(stop) => return Err(stop.at(at)),
            Ok(record) => {
                if let Err(stop) = pool.put(record.id, record.object) {
                    return Err(stop.at(at));
                }
                rest = record.rest;
            }
        }
    }
    Ok(pool)
}

//! The reading of a pool's bytes.

ghost use Rattle.std.specs.Prelude.{IfOk};
ghost use Rattle.vt_stores.specs.Stores.{AreStored};
ghost use Rattle.check_reading.specs.Readings.{IsPoolReading};

use crate::in_force::{InForce, in_force};
use crate::passed::PassedRecord;
use crate::records::{Records, read_records};
use std::alloc::{AllocError, Global};
use vt_objects::{Kind, ObjectId, SortedStore};
use vt_pool::PoolFault;

/// The record of an object in force.
#[derive(Clone, Copy, PartialEq, Eq)]
pub struct ObjectRecord {
    /// The ID of the object.
    pub id: ObjectId,
    /// The kind of the object.
    pub kind: Kind,
    /// The index of the record's first byte.
    pub at: usize,
}

/// A record that a later one of the same ID replaces.
#[derive(Clone, Copy, PartialEq, Eq)]
pub struct ReplacedRecord {
    /// The ID of both records.
    pub id: ObjectId,
    /// The kind of the replaced record.
    pub kind: Kind,
    /// The index of the replaced record's first byte.
    pub at: usize,
    /// The index of the first byte of the record in force.
    pub by: usize,
}

/// The records of a pool's bytes, and their faults.
#[derive(Drop)]
pub struct PoolReading {
    /// The objects in force: those of the last record of each ID.
    pub objects: SortedStore,
    /// The record of each object in force, by rising ID.
    pub records: Vec<ObjectRecord>,
    /// The replaced records, in the order of their bytes.
    pub replaced: Vec<ReplacedRecord>,
    /// The faults of the records, in the order of their bytes. Empty exactly if the bytes are whole records.
    pub faults: Vec<PoolFault>,
    /// The records of types that this terminal leaves out, in the order of their bytes. Each has a fault, and those after it are read.
    pub passed: Vec<PassedRecord>,
    /// The index of the first byte that could not be read, if there is one.
    pub unread: Option<usize>,
}

/// Reads the records of a pool to the end of the bytes, or to the first one whose length is unknown. A wrong scale is read as 1, and wrong
/// decimals as 7. A record of a type that this terminal leaves out is passed over, if its length is known.
///
/// # Errors
/// A refused allocation. The bytes are as they were.
pub fn read_past_faults(alloc: Global, bytes: &[u8]) -> Result<PoolReading, AllocError>
    ensures reading { IfOk result (IsPoolReading bytes.now) }
    ensures stored { IfOk result (λ r. AreStored r.objects) }
{
    let Records {
        found,
        faults,
        passed,
        unread,
    } = read_records(alloc, bytes)?;
    let InForce {
        objects,
        records,
        replaced,
    } = in_force(alloc, found)?;
    Ok(PoolReading {
        objects,
        records,
        replaced,
        faults,
        passed,
        unread,
    })
}

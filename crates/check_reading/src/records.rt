//! The records of a pool's bytes.

ghost use Rattle.std.specs.Prelude.{◌≡◌, ◌<◌, ◌+◌, ◌++◌, length, drop, slice_set, IfOk, IfErr};
ghost use Rattle.vt_kinds.specs.Records.{seen, record_of, HasRecord};
ghost use Rattle.vt_records.specs.RecordFaults.{IsStop};
ghost use Rattle.check_reading.specs.Readings.{AreRead, wants_memory, is_mendable, mended_at};

use crate::passed::{PassedRecord, passed_record, passed_size};
use std::alloc::{AllocError, Global};
use vt_objects::{Object, ObjectId};
use vt_pool::PoolFault;
use vt_records::{RecordFault, read_record};

/// The most wrong fields of one record that are read as if they were right: a record has one scale and one number of
/// decimals.
const MOST_MENDED: u8 = 2;

/// A record of a pool.
#[derive(Drop)]
pub(crate) struct FoundRecord {
    pub(crate) id: ObjectId,
    /// The index of its first byte.
    pub(crate) at: usize,
    pub(crate) object: Object<Vec<u8>>,
}

/// The records of a pool's bytes, and their faults.
#[derive(Drop)]
pub(crate) struct Records {
    /// The records, in the order of their bytes.
    pub(crate) found: Vec<FoundRecord>,
    /// The faults, in the order of their bytes.
    pub(crate) faults: Vec<PoolFault>,
    /// The records that are passed over, in the order of their bytes. Each has a fault.
    pub(crate) passed: Vec<PassedRecord>,
    /// The index of the first byte that could not be read, if there is one.
    pub(crate) unread: Option<usize>,
}

/// Reads records to the end of the bytes, or to the first one whose length is unknown. A wrong scale is read as 1, and wrong decimals
/// as 7. A record of a type that this terminal leaves out is passed over, if its length is known.
pub(crate) fn read_records(alloc: Global, bytes: &[u8]) -> Result<Records, AllocError>
    ensures { IfOk result (AreRead bytes.now) }
{
    let mut mended = Vec::from_slice(alloc, bytes)?;
    let mut found = Vec::new(alloc);
    let mut faults = Vec::new(alloc);
    let mut passed = Vec::new(alloc);
    let mut at = 0usize;
    let mut left = MOST_MENDED;
    while at < mended.len() {
        match read_owned(alloc, rest_of(&mended, at)) {
            Ok(record) => {
                found.push(FoundRecord {
                    id: record.id,
                    at,
                    object: record.object,
                })?;
                at += record.size;
                left = MOST_MENDED;
            }
            Err(fault) if wants_memory(fault) => return Err(AllocError),
            Err(fault) => {
                faults.push(fault.at(at))?;
                if let Some(size) = passed_size(fault, rest_of(&mended, at)) {
                    passed.push(passed_record(rest_of(&mended, at), at))?;
                    at += size;
                    left = MOST_MENDED;
                } else {
                    if left == 0 || !is_mendable(fault) {
                        return Ok(Records {
                            found,
                            faults,
                            passed,
                            unread: Some(at),
                        });
                    }
                    mend(&mut mended, at, fault);
                    left -= 1;
                }
            }
        }
    }
    Ok(Records {
        found,
        faults,
        passed,
        unread: None,
    })
}

/// A record with a copy of its object.
#[derive(Drop)]
struct OwnedRecord {
    id: ObjectId,
    object: Object<Vec<u8>>,
    /// The number of its bytes.
    size: usize,
}

/// Reads the record at the front, and copies its object.
fn read_owned(alloc: Global, bytes: &[u8]) -> Result<OwnedRecord, RecordFault>
    ensures record { IfOk result (λ r. HasRecord r.id (seen r.object)) }
    ensures size { IfOk result (λ r. r.size ≡ length (record_of r.id (seen r.object))) }
    ensures parts { IfOk result (λ r. bytes.now ≡ record_of r.id (seen r.object) ++ drop r.size bytes.now) }
    ensures some { IfOk result (λ r. 0 < r.size) }
    ensures fault { IfErr result (IsStop bytes.now) }
{
    let record = read_record(alloc, bytes)?;
    let size = bytes.len() - record.rest.len();
    let object = record.object.copied(alloc)?;
    Ok(OwnedRecord {
        id: record.id,
        object,
        size,
    })
}

/// The bytes from an index on.
fn rest_of(bytes: &[u8], at: usize) -> &[u8]
    requires { at < length bytes.now }
    ensures { result.now ≡ drop at bytes.now }
{
    &bytes[at..]
}

fn wants_memory(fault: RecordFault) -> bool
    ensures { result ≡ wants_memory fault }
{
    matches!(fault, RecordFault::OutOfMemory)
}

/// Whether the length of a record with this fault is known.
fn is_mendable(fault: RecordFault) -> bool
    ensures { result ≡ is_mendable fault }
{
    matches!(
        fault,
        RecordFault::Scale { .. } | RecordFault::Decimals { .. }
    )
}

/// Writes the scale 1 over a wrong scale, or 7 over wrong decimals, of the record at an index; without effect for other
/// faults.
fn mend(bytes: &mut [u8], at: usize, fault: RecordFault)
    requires { at < length bytes.old }
    ensures { bytes.new ≡ mended_at at fault bytes.old }
{
    match fault {
        RecordFault::Scale { at: field } => {
            let field = at + usize::from(field);
            put(bytes, field, 0);
            put(bytes, field + 1, 0);
            put(bytes, field + 2, 0x80);
            put(bytes, field + 3, 0x3F);
        }
        RecordFault::Decimals { at: field } => put(bytes, at + usize::from(field), 7),
        _ => {}
    }
}

/// Writes a byte at an index; without effect past the end.
fn put(bytes: &mut [u8], at: usize, byte: u8)
    ensures { bytes.new ≡ slice_set bytes.old at byte }
{
    if at < bytes.len() {
        bytes[at] = byte;
    }
}

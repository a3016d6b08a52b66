//! Skips records without an allocation, to find where they end and which is faulty.

ghost use Rattle.std.specs.Prelude.{◌≡◌, ◌<◌, ◌≤◌, ◌+◌, ◌^◌, length, drop, IfOk};
ghost use Rattle.vt_kinds.specs.Records.{fields_of};
ghost use Rattle.vt_records.specs.Heads.{fields_at, record_at};
ghost use Rattle.vt_pool.specs.PoolUploads.{AreWholeTo, IsReadTo, lasting_of};
ghost use Rattle.vt_pool.specs.FieldLayouts.{HeadGives, PassesFields, PassesRecord};

use crate::field_layout::EntryCounts;
use crate::layouts::layout;
use vt_kinds::Kind;
use vt_records::{PoolFault, Reader, RecordFault, kind_with};

/// Skips the whole records from index `from` on, where earlier records end. Returns the end of the last one, and the
/// fault of the bytes after it, if they have one that more bytes cannot cure.
pub fn pass_records(pool: &[u8], from: usize) -> (usize, Option<PoolFault>)
    requires { AreWholeTo pool.now from }
    ensures { IsReadTo pool.now result.0 result.1 }
{
    let mut at = from;
    while at < pool.len() {
        match record_end(pool, at) {
            Err(fault) => return (at, lasting(fault)),
            Ok(place) => at = place,
        }
    }
    (at, None)
}

/// The fault, if more bytes or more memory do not cure it.
fn lasting(fault: PoolFault) -> Option<PoolFault>
    ensures { result ≡ lasting_of fault }
{
    match fault {
        PoolFault::Truncated { at: _ } | PoolFault::OutOfMemory { at: _ } => None,
        _ => Some(fault),
    }
}

/// The end of the record at index `at` of a pool, or its fault.
pub fn record_end(pool: &[u8], at: usize) -> Result<usize, PoolFault>
    requires { at < length pool.now }
    ensures passes { PassesRecord (length pool.now) at result (record_at (drop at pool.now)) }
    ensures further { IfOk result (λ place. (at < place) × (place ≤ length pool.now)) }
{
    let bytes = &pool[at..];
    match kind_of_record(bytes) {
        Err(stop) => Err(stop.at(at)),
        Ok(kind) => {
            let rest = pass_fields(kind, bytes, at)?;
            Ok(pool.len() - rest.len())
        }
    }
}

/// The kind of the record at the front, or its fault.
fn kind_of_record(bytes: &[u8]) -> Result<Kind, RecordFault>
    ensures head { HeadGives result bytes.now }
    ensures long { IfOk result (λ kind. 3 ≤ length bytes.now) }
{
    let mut reader = Reader::new(bytes);
    reader.need(3)?;
    let id = reader.id();
    let number = reader.u8();
    if id.is_null() {
        return Err(RecordFault::NullId);
    }
    kind_with(number)
}

/// The bytes after the fields of a record at index `at` of its pool, or its fault.
fn pass_fields<'a>(kind: Kind, bytes: &'a [u8], at: usize) -> Result<&'a [u8], PoolFault>
    requires head { 3 ≤ length bytes.now }
    requires place { at + length bytes.now < 2 ^ 63 }
    ensures passes { PassesFields (λ rest. rest.now) at result (fields_at (fields_of kind) (drop 3 bytes.now)) }
    ensures shorter { IfOk result (λ rest. length rest.now < length bytes.now) }
{
    let mut counts = EntryCounts::none();
    let mut rest = &bytes[3..];
    let mut met = None;
    for field in layout(kind) {
        match field.split(counts, rest) {
            None => return Err(PoolFault::Truncated { at }),
            Some((front, behind)) => {
                met = met.or(field.fault(front, at + (bytes.len() - rest.len())));
                counts = field.count(front, counts);
                rest = behind;
            }
        }
    }
    match met {
        Some(fault) => Err(fault),
        None => Ok(rest),
    }
}

//! Reads the record at the front of bytes.

ghost use Rattle.std.specs.Prelude.{◌≡◌, ◌<◌, ◌++◌, length, IfOk, IfErr};
ghost use Rattle.vt_kinds.specs.Kinds.{kind_of_type};
ghost use Rattle.vt_kinds.specs.Records.{kind_of, values_of, seen, record_of, HasRecord};
ghost use Rattle.vt_records.specs.Heads.{Reads, record_at, or_stop, other_type};
ghost use Rattle.vt_records.specs.RecordFaults.{IsStop};

use crate::reader::Reader;
use crate::record_fault::RecordFault;
use crate::records::read_fields;
use std::alloc::Global;
use vt_kinds::{Kind, Object, ObjectId};

/// A record and the bytes after it.
#[derive(Drop)]
pub struct Record<'a> {
    pub id: ObjectId,
    pub object: Object<&'a [u8]>,
    pub rest: &'a [u8],
}

/// Reads the record at the front of `bytes`.
pub fn read_record<'a>(alloc: Global, bytes: &'a [u8]) -> Result<Record<'a>, RecordFault>
    ensures record { IfOk result (λ r. HasRecord r.id (seen r.object)) }
    ensures parts { IfOk result (λ r. bytes.now ≡ record_of r.id (seen r.object) ++ r.rest.now) }
    ensures shorter { IfOk result (λ r. length r.rest.now < length bytes.now) }
    ensures fault { IfErr result (IsStop bytes.now) }
{
    parse_record(alloc, bytes)
}

// The clauses of `read_record` are proved from this function's one equation.
#[tactic(auto, unfolding(crate::specs::Heads::record_at))]
fn parse_record<'a>(alloc: Global, bytes: &'a [u8]) -> Result<Record<'a>, RecordFault>
    ensures { Reads (λ r. record { id = r.id; kind = kind_of r.object; values = values_of r.object; rest = r.rest.now }) result (record_at bytes.now) }
{
    let mut reader = Reader::new(bytes);
    reader.need(3)?;
    let id = reader.id();
    let number = reader.u8();
    if id.is_null() {
        return Err(RecordFault::NullId);
    }
    let kind = kind_with(number)?;
    let object = read_fields(alloc, kind, &mut reader)?;
    Ok(Record {
        id,
        object,
        rest: reader.rest(),
    })
}

/// The kind of a type number, or the fault of a type without a kind.
pub fn kind_with(number: u8) -> Result<Kind, RecordFault>
    ensures { result ≡ or_stop (other_type number) (kind_of_type number) }
{
    match Kind::from_number(number) {
        Some(kind) => Ok(kind),
        None if (29..=33).contains(&number) => Err(RecordFault::LeftOutType),
        None => Err(RecordFault::UnknownType),
    }
}

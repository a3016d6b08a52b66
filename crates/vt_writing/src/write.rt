//! Appends numbers and whole records to a vector.

ghost use Rattle.std.specs.Prelude.{◌≡◌, ◌<◌, ◌++◌, OnOk, OnErr};
ghost use Rattle.byteorder.specs.Endian.{little_bytes};
ghost use Rattle.vt_kinds.specs.Ids.{null_id};
ghost use Rattle.vt_kinds.specs.Records.{HasRecord, record_of, seen};

use crate::value::{each_fits, write_each};
use crate::values::values_of;
use byteorder::{ByteOrder, LittleEndian};
use std::alloc::{AllocError, Global};
use std::convert::AsSlice;
use vt_kinds::{Object, ObjectId};

pub fn put_u8(out: &mut Vec<u8>, n: u8) -> Result<(), AllocError>
    ensures { OnOk result (out.new.items ≡ out.old.items ++ little_bytes 1 n) }
{
    out.push(n)?;
    Ok(())
}

pub fn put_u16(out: &mut Vec<u8>, n: u16) -> Result<(), AllocError>
    ensures { OnOk result (out.new.items ≡ out.old.items ++ little_bytes 2 n) }
{
    let mut bytes = [0; 2];
    LittleEndian::write_u16(&mut bytes, n);
    out.extend_from_slice(&bytes)
}

pub fn put_u32(out: &mut Vec<u8>, n: u32) -> Result<(), AllocError>
    ensures { OnOk result (out.new.items ≡ out.old.items ++ little_bytes 4 n) }
{
    let mut bytes = [0; 4];
    LittleEndian::write_u32(&mut bytes, n);
    out.extend_from_slice(&bytes)
}

/// Appends the record of an object under an ID other than NULL. After an error the vector is unchanged.
#[tactic(auto, using(crate::proofs::Spelling::record_spelled))]
pub fn write_object<B: AsSlice<u8>>(
    alloc: Global,
    id: ObjectId,
    object: &Object<B>,
    out: &mut Vec<u8>,
) -> Result<(), AllocError>
    requires { id < null_id }
    ensures ok { OnOk result (out.new.items ≡ out.old.items ++ record_of id object.now) }
    ensures record { HasRecord id (seen object.now) }
    ensures err { OnErr result (out.new.items ≡ out.old.items) }
{
    let values = values_of(object);
    each_fits(&values);
    let mut record = Vec::new(alloc);
    put_u16(&mut record, id.raw())?;
    record.push(object.kind().number())?;
    write_each(&values, &mut record)?;
    out.extend_from_slice(&record)
}

//! Reads the records of pictures.

ghost use Rattle.std.specs.Prelude.{◌≡◌, ◌≤◌, length, IfOk};
ghost use Rattle.vt_kinds.specs.Records.{fields_of, values_of, kind_of};
ghost use Rattle.vt_kinds.specs.declared.kind.Kind.TheVariants as kinds;
ghost use Rattle.vt_records.specs.Heads.{Reads, fields_at};
ghost use Rattle.vt_records.specs.TableReads.{head_size};

use crate::entry::entries;
use crate::reader::Reader;
use crate::record_fault::RecordFault;
use std::alloc::Global;
use vt_kinds::{Object, Picture};

pub fn read_picture<'a>(
    alloc: Global,
    reader: &mut Reader<'a>,
) -> Result<Object<&'a [u8]>, RecordFault>
    requires { head_size (fields_of kinds.Picture) ≤ length reader.old }
    ensures read { Reads (λ o. (values_of o, reader.new)) result (fields_at (fields_of kinds.Picture) reader.old) }
    ensures kind { IfOk result (λ o. kind_of o ≡ kinds.Picture) }
{
    let width = reader.u16();
    let actual_width = reader.u16();
    let actual_height = reader.u16();
    let format = reader.u8();
    let options = reader.u8();
    let transparency = reader.u8();
    let byte_count = reader.u32();
    let macro_count = reader.u8();
    let bytes = reader.picture_bytes(byte_count)?;
    let macros = entries(alloc, reader, macro_count)?;
    Ok(Object::Picture(Picture {
        width,
        actual_width,
        actual_height,
        format,
        options,
        transparency,
        bytes,
        macros,
    }))
}

//! Reads the records of soft key masks, keys and buttons.

ghost use Rattle.std.specs.Prelude.{◌≡◌, ◌≤◌, length, IfOk};
ghost use Rattle.vt_kinds.specs.Records.{fields_of, values_of, kind_of};
ghost use Rattle.vt_kinds.specs.declared.kind.Kind.TheVariants as kinds;
ghost use Rattle.vt_records.specs.Heads.{Reads, fields_at};
ghost use Rattle.vt_records.specs.TableReads.{head_size};

use crate::entry::entries;
use crate::reader::Reader;
use crate::record_fault::RecordFault;
use std::alloc::Global;
use vt_kinds::{Button, Key, Object, SoftKeyMask};

pub fn read_soft_key_mask<'a>(
    alloc: Global,
    reader: &mut Reader<'a>,
) -> Result<Object<&'a [u8]>, RecordFault>
    requires { head_size (fields_of kinds.SoftKeyMask) ≤ length reader.old }
    ensures read { Reads (λ o. (values_of o, reader.new)) result (fields_at (fields_of kinds.SoftKeyMask) reader.old) }
    ensures kind { IfOk result (λ o. kind_of o ≡ kinds.SoftKeyMask) }
{
    let colour = reader.u8();
    let key_count = reader.u8();
    let macro_count = reader.u8();
    let keys = entries(alloc, reader, key_count)?;
    let macros = entries(alloc, reader, macro_count)?;
    Ok(Object::SoftKeyMask(SoftKeyMask {
        colour,
        keys,
        macros,
    }))
}

pub fn read_key<'a>(alloc: Global, reader: &mut Reader<'a>) -> Result<Object<&'a [u8]>, RecordFault>
    requires { head_size (fields_of kinds.Key) ≤ length reader.old }
    ensures read { Reads (λ o. (values_of o, reader.new)) result (fields_at (fields_of kinds.Key) reader.old) }
    ensures kind { IfOk result (λ o. kind_of o ≡ kinds.Key) }
{
    let colour = reader.u8();
    let key_code = reader.u8();
    let child_count = reader.u8();
    let macro_count = reader.u8();
    let children = entries(alloc, reader, child_count)?;
    let macros = entries(alloc, reader, macro_count)?;
    Ok(Object::Key(Key {
        colour,
        key_code,
        children,
        macros,
    }))
}

pub fn read_button<'a>(
    alloc: Global,
    reader: &mut Reader<'a>,
) -> Result<Object<&'a [u8]>, RecordFault>
    requires { head_size (fields_of kinds.Button) ≤ length reader.old }
    ensures read { Reads (λ o. (values_of o, reader.new)) result (fields_at (fields_of kinds.Button) reader.old) }
    ensures kind { IfOk result (λ o. kind_of o ≡ kinds.Button) }
{
    let width = reader.u16();
    let height = reader.u16();
    let colour = reader.u8();
    let border = reader.u8();
    let key_code = reader.u8();
    let options = reader.u8();
    let child_count = reader.u8();
    let macro_count = reader.u8();
    let children = entries(alloc, reader, child_count)?;
    let macros = entries(alloc, reader, macro_count)?;
    Ok(Object::Button(Button {
        width,
        height,
        colour,
        border,
        key_code,
        options,
        children,
        macros,
    }))
}

//! Reads the records of output fields.

ghost use Rattle.std.specs.Prelude.{◌≡◌, ◌≤◌, length, IfOk};
ghost use Rattle.vt_kinds.specs.Records.{fields_of, values_of, kind_of};
ghost use Rattle.vt_kinds.specs.declared.kind.Kind.TheVariants as kinds;
ghost use Rattle.vt_records.specs.Heads.{Reads, fields_at};
ghost use Rattle.vt_records.specs.TableReads.{head_size};

use crate::entry::entries;
use crate::reader::Reader;
use crate::record_fault::RecordFault;
use std::alloc::Global;
use vt_kinds::{Decimals, Object, OutputNumber, OutputString, Scale};

pub fn read_output_string<'a>(
    alloc: Global,
    reader: &mut Reader<'a>,
) -> Result<Object<&'a [u8]>, RecordFault>
    requires { head_size (fields_of kinds.OutputString) ≤ length reader.old }
    ensures read { Reads (λ o. (values_of o, reader.new)) result (fields_at (fields_of kinds.OutputString) reader.old) }
    ensures kind { IfOk result (λ o. kind_of o ≡ kinds.OutputString) }
{
    let width = reader.u16();
    let height = reader.u16();
    let colour = reader.u8();
    let font = reader.id();
    let options = reader.u8();
    let variable = reader.id();
    let justification = reader.u8();
    let length = reader.u16();
    let text = reader.long_text(length)?;
    let macro_count = reader.try_u8()?;
    let macros = entries(alloc, reader, macro_count)?;
    Ok(Object::OutputString(OutputString {
        width,
        height,
        colour,
        font,
        options,
        variable,
        justification,
        text,
        macros,
    }))
}

pub fn read_output_number<'a>(
    alloc: Global,
    reader: &mut Reader<'a>,
) -> Result<Object<&'a [u8]>, RecordFault>
    requires { head_size (fields_of kinds.OutputNumber) ≤ length reader.old }
    ensures read { Reads (λ o. (values_of o, reader.new)) result (fields_at (fields_of kinds.OutputNumber) reader.old) }
    ensures kind { IfOk result (λ o. kind_of o ≡ kinds.OutputNumber) }
{
    let width = reader.u16();
    let height = reader.u16();
    let colour = reader.u8();
    let font = reader.id();
    let options = reader.u8();
    let variable = reader.id();
    let value = reader.u32();
    let offset = reader.i32();
    let scale = reader.four_bytes();
    let decimals = reader.u8();
    let format = reader.u8();
    let justification = reader.u8();
    let macro_count = reader.u8();
    let macros = entries(alloc, reader, macro_count)?;
    let Some(scale) = Scale::from_bytes(scale) else {
        return Err(RecordFault::Scale { at: 21 });
    };
    let Some(decimals) = Decimals::new(decimals) else {
        return Err(RecordFault::Decimals { at: 25 });
    };
    Ok(Object::OutputNumber(OutputNumber {
        width,
        height,
        colour,
        font,
        options,
        variable,
        value,
        offset,
        scale,
        decimals,
        format,
        justification,
        macros,
    }))
}

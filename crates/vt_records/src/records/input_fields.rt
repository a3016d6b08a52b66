//! Reads the records of input fields.

ghost use Rattle.std.specs.Prelude.{◌≡◌, ◌≤◌, length, IfOk};
ghost use Rattle.vt_kinds.specs.Records.{fields_of, values_of, kind_of};
ghost use Rattle.vt_kinds.specs.declared.kind.Kind.TheVariants as kinds;
ghost use Rattle.vt_records.specs.Heads.{Reads, fields_at};
ghost use Rattle.vt_records.specs.TableReads.{head_size};

use crate::entry::entries;
use crate::reader::Reader;
use crate::record_fault::RecordFault;
use std::alloc::Global;
use vt_kinds::{Decimals, InputBoolean, InputList, InputNumber, InputString, Object, Scale};

pub fn read_input_boolean<'a>(
    alloc: Global,
    reader: &mut Reader<'a>,
) -> Result<Object<&'a [u8]>, RecordFault>
    requires { head_size (fields_of kinds.InputBoolean) ≤ length reader.old }
    ensures read { Reads (λ o. (values_of o, reader.new)) result (fields_at (fields_of kinds.InputBoolean) reader.old) }
    ensures kind { IfOk result (λ o. kind_of o ≡ kinds.InputBoolean) }
{
    let colour = reader.u8();
    let width = reader.u16();
    let font = reader.id();
    let variable = reader.id();
    let value = reader.u8();
    let enabled = reader.u8();
    let macro_count = reader.u8();
    let macros = entries(alloc, reader, macro_count)?;
    Ok(Object::InputBoolean(InputBoolean {
        colour,
        width,
        font,
        variable,
        value,
        enabled,
        macros,
    }))
}

pub fn read_input_string<'a>(
    alloc: Global,
    reader: &mut Reader<'a>,
) -> Result<Object<&'a [u8]>, RecordFault>
    requires { head_size (fields_of kinds.InputString) ≤ length reader.old }
    ensures read { Reads (λ o. (values_of o, reader.new)) result (fields_at (fields_of kinds.InputString) reader.old) }
    ensures kind { IfOk result (λ o. kind_of o ≡ kinds.InputString) }
{
    let width = reader.u16();
    let height = reader.u16();
    let colour = reader.u8();
    let font = reader.id();
    let input_attributes = reader.id();
    let options = reader.u8();
    let variable = reader.id();
    let justification = reader.u8();
    let length = reader.u8();
    let text = reader.short_text(length)?;
    let enabled = reader.try_u8()?;
    let macro_count = reader.try_u8()?;
    let macros = entries(alloc, reader, macro_count)?;
    Ok(Object::InputString(InputString {
        width,
        height,
        colour,
        font,
        input_attributes,
        options,
        variable,
        justification,
        text,
        enabled,
        macros,
    }))
}

pub fn read_input_number<'a>(
    alloc: Global,
    reader: &mut Reader<'a>,
) -> Result<Object<&'a [u8]>, RecordFault>
    requires { head_size (fields_of kinds.InputNumber) ≤ length reader.old }
    ensures read { Reads (λ o. (values_of o, reader.new)) result (fields_at (fields_of kinds.InputNumber) reader.old) }
    ensures kind { IfOk result (λ o. kind_of o ≡ kinds.InputNumber) }
{
    let width = reader.u16();
    let height = reader.u16();
    let colour = reader.u8();
    let font = reader.id();
    let options = reader.u8();
    let variable = reader.id();
    let value = reader.u32();
    let min = reader.u32();
    let max = reader.u32();
    let offset = reader.i32();
    let scale = reader.four_bytes();
    let decimals = reader.u8();
    let format = reader.u8();
    let justification = reader.u8();
    let options_two = reader.u8();
    let macro_count = reader.u8();
    let macros = entries(alloc, reader, macro_count)?;
    let Some(scale) = Scale::from_bytes(scale) else {
        return Err(RecordFault::Scale { at: 29 });
    };
    let Some(decimals) = Decimals::new(decimals) else {
        return Err(RecordFault::Decimals { at: 33 });
    };
    Ok(Object::InputNumber(InputNumber {
        width,
        height,
        colour,
        font,
        options,
        variable,
        value,
        min,
        max,
        offset,
        scale,
        decimals,
        format,
        justification,
        options_two,
        macros,
    }))
}

pub fn read_input_list<'a>(
    alloc: Global,
    reader: &mut Reader<'a>,
) -> Result<Object<&'a [u8]>, RecordFault>
    requires { head_size (fields_of kinds.InputList) ≤ length reader.old }
    ensures read { Reads (λ o. (values_of o, reader.new)) result (fields_at (fields_of kinds.InputList) reader.old) }
    ensures kind { IfOk result (λ o. kind_of o ≡ kinds.InputList) }
{
    let width = reader.u16();
    let height = reader.u16();
    let variable = reader.id();
    let value = reader.u8();
    let item_count = reader.u8();
    let options = reader.u8();
    let macro_count = reader.u8();
    let items = entries(alloc, reader, item_count)?;
    let macros = entries(alloc, reader, macro_count)?;
    Ok(Object::InputList(InputList {
        width,
        height,
        variable,
        value,
        options,
        items,
        macros,
    }))
}

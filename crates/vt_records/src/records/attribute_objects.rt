//! Reads the records of attribute objects: fonts, line, fill and input attributes.

ghost use Rattle.std.specs.Prelude.{◌≡◌, ◌≤◌, length, IfOk};
ghost use Rattle.vt_kinds.specs.Records.{fields_of, values_of, kind_of};
ghost use Rattle.vt_kinds.specs.declared.kind.Kind.TheVariants as kinds;
ghost use Rattle.vt_records.specs.Heads.{Reads, fields_at};
ghost use Rattle.vt_records.specs.TableReads.{head_size};

use crate::entry::entries;
use crate::reader::Reader;
use crate::record_fault::RecordFault;
use std::alloc::Global;
use vt_kinds::{FillAttributes, Font, InputAttributes, LineAttributes, Object};

pub fn read_font<'a>(
    alloc: Global,
    reader: &mut Reader<'a>,
) -> Result<Object<&'a [u8]>, RecordFault>
    requires { head_size (fields_of kinds.Font) ≤ length reader.old }
    ensures read { Reads (λ o. (values_of o, reader.new)) result (fields_at (fields_of kinds.Font) reader.old) }
    ensures kind { IfOk result (λ o. kind_of o ≡ kinds.Font) }
{
    let colour = reader.u8();
    let size = reader.u8();
    let font_type = reader.u8();
    let style = reader.u8();
    let macro_count = reader.u8();
    let macros = entries(alloc, reader, macro_count)?;
    Ok(Object::Font(Font {
        colour,
        size,
        font_type,
        style,
        macros,
    }))
}

pub fn read_line_attributes<'a>(
    alloc: Global,
    reader: &mut Reader<'a>,
) -> Result<Object<&'a [u8]>, RecordFault>
    requires { head_size (fields_of kinds.LineAttributes) ≤ length reader.old }
    ensures read { Reads (λ o. (values_of o, reader.new)) result (fields_at (fields_of kinds.LineAttributes) reader.old) }
    ensures kind { IfOk result (λ o. kind_of o ≡ kinds.LineAttributes) }
{
    let colour = reader.u8();
    let width = reader.u8();
    let line_art = reader.u16();
    let macro_count = reader.u8();
    let macros = entries(alloc, reader, macro_count)?;
    Ok(Object::LineAttributes(LineAttributes {
        colour,
        width,
        line_art,
        macros,
    }))
}

pub fn read_fill_attributes<'a>(
    alloc: Global,
    reader: &mut Reader<'a>,
) -> Result<Object<&'a [u8]>, RecordFault>
    requires { head_size (fields_of kinds.FillAttributes) ≤ length reader.old }
    ensures read { Reads (λ o. (values_of o, reader.new)) result (fields_at (fields_of kinds.FillAttributes) reader.old) }
    ensures kind { IfOk result (λ o. kind_of o ≡ kinds.FillAttributes) }
{
    let fill_type = reader.u8();
    let colour = reader.u8();
    let pattern = reader.id();
    let macro_count = reader.u8();
    let macros = entries(alloc, reader, macro_count)?;
    Ok(Object::FillAttributes(FillAttributes {
        fill_type,
        colour,
        pattern,
        macros,
    }))
}

pub fn read_input_attributes<'a>(
    alloc: Global,
    reader: &mut Reader<'a>,
) -> Result<Object<&'a [u8]>, RecordFault>
    requires { head_size (fields_of kinds.InputAttributes) ≤ length reader.old }
    ensures read { Reads (λ o. (values_of o, reader.new)) result (fields_at (fields_of kinds.InputAttributes) reader.old) }
    ensures kind { IfOk result (λ o. kind_of o ≡ kinds.InputAttributes) }
{
    let validation_type = reader.u8();
    let length = reader.u8();
    let text = reader.short_text(length)?;
    let macro_count = reader.try_u8()?;
    let macros = entries(alloc, reader, macro_count)?;
    Ok(Object::InputAttributes(InputAttributes {
        validation_type,
        text,
        macros,
    }))
}

//! Reads the records of output graphics.

ghost use Rattle.std.specs.Prelude.{◌≡◌, ◌≤◌, length, IfOk};
ghost use Rattle.vt_kinds.specs.Records.{fields_of, values_of, kind_of};
ghost use Rattle.vt_kinds.specs.declared.kind.Kind.TheVariants as kinds;
ghost use Rattle.vt_records.specs.Heads.{Reads, fields_at};
ghost use Rattle.vt_records.specs.TableReads.{head_size};

use crate::entry::entries;
use crate::reader::Reader;
use crate::record_fault::RecordFault;
use std::alloc::Global;
use vt_kinds::{ArchedBar, LinearBar, Meter, Object};

pub fn read_meter<'a>(
    alloc: Global,
    reader: &mut Reader<'a>,
) -> Result<Object<&'a [u8]>, RecordFault>
    requires { head_size (fields_of kinds.Meter) ≤ length reader.old }
    ensures read { Reads (λ o. (values_of o, reader.new)) result (fields_at (fields_of kinds.Meter) reader.old) }
    ensures kind { IfOk result (λ o. kind_of o ≡ kinds.Meter) }
{
    let width = reader.u16();
    let needle_colour = reader.u8();
    let border_colour = reader.u8();
    let arc_colour = reader.u8();
    let options = reader.u8();
    let ticks = reader.u8();
    let start = reader.u8();
    let end = reader.u8();
    let min = reader.u16();
    let max = reader.u16();
    let variable = reader.id();
    let value = reader.u16();
    let macro_count = reader.u8();
    let macros = entries(alloc, reader, macro_count)?;
    Ok(Object::Meter(Meter {
        width,
        needle_colour,
        border_colour,
        arc_colour,
        options,
        ticks,
        start,
        end,
        min,
        max,
        variable,
        value,
        macros,
    }))
}

pub fn read_linear_bar<'a>(
    alloc: Global,
    reader: &mut Reader<'a>,
) -> Result<Object<&'a [u8]>, RecordFault>
    requires { head_size (fields_of kinds.LinearBar) ≤ length reader.old }
    ensures read { Reads (λ o. (values_of o, reader.new)) result (fields_at (fields_of kinds.LinearBar) reader.old) }
    ensures kind { IfOk result (λ o. kind_of o ≡ kinds.LinearBar) }
{
    let width = reader.u16();
    let height = reader.u16();
    let colour = reader.u8();
    let target_colour = reader.u8();
    let options = reader.u8();
    let ticks = reader.u8();
    let min = reader.u16();
    let max = reader.u16();
    let variable = reader.id();
    let value = reader.u16();
    let target_variable = reader.id();
    let target = reader.u16();
    let macro_count = reader.u8();
    let macros = entries(alloc, reader, macro_count)?;
    Ok(Object::LinearBar(LinearBar {
        width,
        height,
        colour,
        target_colour,
        options,
        ticks,
        min,
        max,
        variable,
        value,
        target_variable,
        target,
        macros,
    }))
}

pub fn read_arched_bar<'a>(
    alloc: Global,
    reader: &mut Reader<'a>,
) -> Result<Object<&'a [u8]>, RecordFault>
    requires { head_size (fields_of kinds.ArchedBar) ≤ length reader.old }
    ensures read { Reads (λ o. (values_of o, reader.new)) result (fields_at (fields_of kinds.ArchedBar) reader.old) }
    ensures kind { IfOk result (λ o. kind_of o ≡ kinds.ArchedBar) }
{
    let width = reader.u16();
    let height = reader.u16();
    let colour = reader.u8();
    let target_colour = reader.u8();
    let options = reader.u8();
    let start = reader.u8();
    let end = reader.u8();
    let bar_width = reader.u16();
    let min = reader.u16();
    let max = reader.u16();
    let variable = reader.id();
    let value = reader.u16();
    let target_variable = reader.id();
    let target = reader.u16();
    let macro_count = reader.u8();
    let macros = entries(alloc, reader, macro_count)?;
    Ok(Object::ArchedBar(ArchedBar {
        width,
        height,
        colour,
        target_colour,
        options,
        start,
        end,
        bar_width,
        min,
        max,
        variable,
        value,
        target_variable,
        target,
        macros,
    }))
}

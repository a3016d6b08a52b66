//! Reads the records of the working set, masks and containers.

ghost use Rattle.std.specs.Prelude.{◌≡◌, ◌≤◌, length, IfOk};
ghost use Rattle.vt_kinds.specs.Records.{fields_of, values_of, kind_of};
ghost use Rattle.vt_kinds.specs.declared.kind.Kind.TheVariants as kinds;
ghost use Rattle.vt_records.specs.Heads.{Reads, fields_at};
ghost use Rattle.vt_records.specs.TableReads.{head_size};

use crate::entry::entries;
use crate::reader::Reader;
use crate::record_fault::RecordFault;
use std::alloc::Global;
use vt_kinds::{AlarmMask, Container, DataMask, Object, WorkingSet};

pub fn read_working_set<'a>(
    alloc: Global,
    reader: &mut Reader<'a>,
) -> Result<Object<&'a [u8]>, RecordFault>
    requires { head_size (fields_of kinds.WorkingSet) ≤ length reader.old }
    ensures read { Reads (λ o. (values_of o, reader.new)) result (fields_at (fields_of kinds.WorkingSet) reader.old) }
    ensures kind { IfOk result (λ o. kind_of o ≡ kinds.WorkingSet) }
{
    let colour = reader.u8();
    let selectable = reader.u8();
    let active_mask = reader.id();
    let child_count = reader.u8();
    let macro_count = reader.u8();
    let language_count = reader.u8();
    let children = entries(alloc, reader, child_count)?;
    let macros = entries(alloc, reader, macro_count)?;
    let languages = entries(alloc, reader, language_count)?;
    Ok(Object::WorkingSet(WorkingSet {
        colour,
        selectable,
        active_mask,
        children,
        macros,
        languages,
    }))
}

pub fn read_data_mask<'a>(
    alloc: Global,
    reader: &mut Reader<'a>,
) -> Result<Object<&'a [u8]>, RecordFault>
    requires { head_size (fields_of kinds.DataMask) ≤ length reader.old }
    ensures read { Reads (λ o. (values_of o, reader.new)) result (fields_at (fields_of kinds.DataMask) reader.old) }
    ensures kind { IfOk result (λ o. kind_of o ≡ kinds.DataMask) }
{
    let colour = reader.u8();
    let soft_key_mask = reader.id();
    let child_count = reader.u8();
    let macro_count = reader.u8();
    let children = entries(alloc, reader, child_count)?;
    let macros = entries(alloc, reader, macro_count)?;
    Ok(Object::DataMask(DataMask {
        colour,
        soft_key_mask,
        children,
        macros,
    }))
}

pub fn read_alarm_mask<'a>(
    alloc: Global,
    reader: &mut Reader<'a>,
) -> Result<Object<&'a [u8]>, RecordFault>
    requires { head_size (fields_of kinds.AlarmMask) ≤ length reader.old }
    ensures read { Reads (λ o. (values_of o, reader.new)) result (fields_at (fields_of kinds.AlarmMask) reader.old) }
    ensures kind { IfOk result (λ o. kind_of o ≡ kinds.AlarmMask) }
{
    let colour = reader.u8();
    let soft_key_mask = reader.id();
    let priority = reader.u8();
    let acoustic = reader.u8();
    let child_count = reader.u8();
    let macro_count = reader.u8();
    let children = entries(alloc, reader, child_count)?;
    let macros = entries(alloc, reader, macro_count)?;
    Ok(Object::AlarmMask(AlarmMask {
        colour,
        soft_key_mask,
        priority,
        acoustic,
        children,
        macros,
    }))
}

pub fn read_container<'a>(
    alloc: Global,
    reader: &mut Reader<'a>,
) -> Result<Object<&'a [u8]>, RecordFault>
    requires { head_size (fields_of kinds.Container) ≤ length reader.old }
    ensures read { Reads (λ o. (values_of o, reader.new)) result (fields_at (fields_of kinds.Container) reader.old) }
    ensures kind { IfOk result (λ o. kind_of o ≡ kinds.Container) }
{
    let width = reader.u16();
    let height = reader.u16();
    let hidden = reader.u8();
    let child_count = reader.u8();
    let macro_count = reader.u8();
    let children = entries(alloc, reader, child_count)?;
    let macros = entries(alloc, reader, macro_count)?;
    Ok(Object::Container(Container {
        width,
        height,
        hidden,
        children,
        macros,
    }))
}

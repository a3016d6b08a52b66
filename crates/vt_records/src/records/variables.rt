//! Reads the records of variables and pointers.

ghost use Rattle.std.specs.Prelude.{◌≡◌, ◌≤◌, length, IfOk};
ghost use Rattle.vt_kinds.specs.Records.{fields_of, values_of, kind_of};
ghost use Rattle.vt_kinds.specs.declared.kind.Kind.TheVariants as kinds;
ghost use Rattle.vt_records.specs.Heads.{Reads, fields_at};
ghost use Rattle.vt_records.specs.TableReads.{head_size};

use crate::reader::Reader;
use crate::record_fault::RecordFault;
use vt_kinds::{NumberVariable, Object, ObjectPointer, StringVariable};

pub fn read_number_variable<'a>(reader: &mut Reader<'a>) -> Result<Object<&'a [u8]>, RecordFault>
    requires { head_size (fields_of kinds.NumberVariable) ≤ length reader.old }
    ensures read { Reads (λ o. (values_of o, reader.new)) result (fields_at (fields_of kinds.NumberVariable) reader.old) }
    ensures kind { IfOk result (λ o. kind_of o ≡ kinds.NumberVariable) }
{
    let value = reader.u32();
    Ok(Object::NumberVariable(NumberVariable { value }))
}

pub fn read_string_variable<'a>(reader: &mut Reader<'a>) -> Result<Object<&'a [u8]>, RecordFault>
    requires { head_size (fields_of kinds.StringVariable) ≤ length reader.old }
    ensures read { Reads (λ o. (values_of o, reader.new)) result (fields_at (fields_of kinds.StringVariable) reader.old) }
    ensures kind { IfOk result (λ o. kind_of o ≡ kinds.StringVariable) }
{
    let length = reader.u16();
    let text = reader.long_text(length)?;
    Ok(Object::StringVariable(StringVariable { text }))
}

pub fn read_object_pointer<'a>(reader: &mut Reader<'a>) -> Result<Object<&'a [u8]>, RecordFault>
    requires { head_size (fields_of kinds.ObjectPointer) ≤ length reader.old }
    ensures read { Reads (λ o. (values_of o, reader.new)) result (fields_at (fields_of kinds.ObjectPointer) reader.old) }
    ensures kind { IfOk result (λ o. kind_of o ≡ kinds.ObjectPointer) }
{
    let value = reader.id();
    Ok(Object::ObjectPointer(ObjectPointer { value }))
}

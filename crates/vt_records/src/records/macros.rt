//! Reads the records of macros.

ghost use Rattle.std.specs.Prelude.{◌≡◌, ◌≤◌, length, IfOk};
ghost use Rattle.vt_kinds.specs.Records.{fields_of, values_of, kind_of};
ghost use Rattle.vt_kinds.specs.declared.kind.Kind.TheVariants as kinds;
ghost use Rattle.vt_records.specs.Heads.{Reads, fields_at};
ghost use Rattle.vt_records.specs.TableReads.{head_size};

use crate::reader::Reader;
use crate::record_fault::RecordFault;
use vt_kinds::{Macro, Object};

pub fn read_macro_object<'a>(reader: &mut Reader<'a>) -> Result<Object<&'a [u8]>, RecordFault>
    requires { head_size (fields_of kinds.Macro) ≤ length reader.old }
    ensures read { Reads (λ o. (values_of o, reader.new)) result (fields_at (fields_of kinds.Macro) reader.old) }
    ensures kind { IfOk result (λ o. kind_of o ≡ kinds.Macro) }
{
    let byte_count = reader.u16();
    let bytes = reader.macro_bytes(byte_count)?;
    Ok(Object::Macro(Macro { bytes }))
}

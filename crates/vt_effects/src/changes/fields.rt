//! Commands that do nothing but write fields.

ghost use Rattle.std.specs.Prelude.{◌≡◌};
ghost use Rattle.vt_kinds.specs.Records.{seen};
ghost use Rattle.vt_effects.specs.Changes as changes;
ghost use Rattle.vt_effects.specs.Changes.{HasResult, left};

use crate::attributes::write_field;
use crate::error;
use vt_kinds::{Field, Kinds, Object};

/// Writes values into fields of an object of these kinds, one after the other. A field that the object's kind lacks is left out.
pub(crate) fn write_fields(
    object: &mut Object<Vec<u8>>,
    kinds: Kinds,
    fields: &[(Field, u32)],
) -> Result<(), u8>
    ensures result { HasResult result (changes.write_fields kinds fields.now (seen object.old)) }
    ensures object { seen object.new ≡ left (seen object.old) (changes.write_fields kinds fields.now (seen object.old)) }
{
    write_fields_if(object, kinds, true, 0, fields)
}

/// Writes values into fields of an object of these kinds, one after the other, if a test is passed. A field that the object's
/// kind lacks is left out. `error` is the error byte of the test.
pub(crate) fn write_fields_if(
    object: &mut Object<Vec<u8>>,
    kinds: Kinds,
    passes: bool,
    error: u8,
    fields: &[(Field, u32)],
) -> Result<(), u8>
    ensures result { HasResult result (changes.write_fields_if kinds passes error fields.now (seen object.old)) }
    ensures object { seen object.new ≡ left (seen object.old) (changes.write_fields_if kinds passes error fields.now (seen object.old)) }
{
    if !kinds.contains(object.kind()) {
        return Err(error::OBJECT);
    }
    if !passes {
        return Err(error);
    }
    for &(field, value) in fields {
        write_field(object, field, value);
    }
    Ok(())
}

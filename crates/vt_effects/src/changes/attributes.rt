//! Change Attribute and Execute Macro.

ghost use Rattle.std.specs.Prelude.{◌≡◌};
ghost use Rattle.vt_kinds.specs.Records.{seen};
ghost use Rattle.vt_effects.specs.Changes as changes;
ghost use Rattle.vt_effects.specs.Changes.{HasResult, left};

use crate::attributes::write_field;
use crate::error;
use vt_commands::attribute;
use vt_kinds::{Kind, Kinds, Object, ObjectId, ValueType};

/// Sets the attribute of a number. `kind_of_other` is the kind of the object whose ID is the two lowest bytes of the value, or
/// `None` if it is missing.
pub(crate) fn change_attribute(
    object: &mut Object<Vec<u8>>,
    kind_of_other: Option<Kind>,
    number: u8,
    value: u32,
) -> Result<(), u8>
    ensures result { HasResult result (changes.change_attribute kind_of_other number value (seen object.old)) }
    ensures object { seen object.new ≡ left (seen object.old) (changes.change_attribute kind_of_other number value (seen object.old)) }
{
    let kind = object.kind();
    if !Kinds::WithAttributes.contains(kind) {
        return Err(error::OBJECT);
    }
    let Some(attribute) = attribute(kind, number) else {
        return Err(error::ATTRIBUTE);
    };
    if !takes(attribute.value_type, kind, value, kind_of_other) {
        return Err(error::ATTRIBUTE_VALUE);
    }
    write_field(object, attribute.field, value);
    Ok(())
}

/// Tests a macro that is to run: the object is a macro with an ID of at most 255.
pub(crate) fn execute_macro(object: &mut Object<Vec<u8>>, id: ObjectId) -> Result<(), u8>
    ensures result { HasResult result (changes.execute_macro id (seen object.old)) }
    ensures object { seen object.new ≡ left (seen object.old) (changes.execute_macro id (seen object.old)) }
{
    let Object::Macro(_) = object else {
        return Err(error::OBJECT_ID);
    };
    if id.raw() > 255 {
        return Err(error::MACRO_ID);
    }
    Ok(())
}

/// Whether a field of a type accepts a value.
fn takes(value_type: ValueType, kind: Kind, value: u32, kind_of_other: Option<Kind>) -> bool
    ensures { result ≡ changes.takes kind value_type value kind_of_other }
{
    value_type.accepts(kind, value, kind_of_other)
}

//! Change Numeric Value and Change List Item.

ghost use Rattle.std.specs.Prelude.{◌≡◌};
ghost use Rattle.vt_kinds.specs.Records.{seen};
ghost use Rattle.vt_effects.specs.Changes as changes;
ghost use Rattle.vt_effects.specs.Changes.{HasResult, left};

use crate::error;
use crate::numbers::{byte, id, word};
use crate::references::may_refer;
use vt_kinds::{Kind, Object, ObjectId, Place};

/// Sets the value. Each kind uses as many of the lowest bytes as its value has; `kind_of_other` is the kind of the object whose
/// ID is the two lowest bytes, or `None` if it is missing.
pub(crate) fn change_value(
    object: &mut Object<Vec<u8>>,
    kind_of_other: Option<Kind>,
    value: u32,
) -> Result<(), u8>
    ensures result { HasResult result (changes.change_value kind_of_other value (seen object.old)) }
    ensures object { seen object.new ≡ left (seen object.old) (changes.change_value kind_of_other value (seen object.old)) }
{
    match object {
        Object::InputBoolean(input) => {
            if byte(value) > 1 {
                return Err(error::VALUE);
            }
            input.value = byte(value);
        }
        Object::InputNumber(input) => {
            if value < input.min || value > input.max {
                return Err(error::VALUE);
            }
            input.value = value;
        }
        Object::InputList(list) => {
            if byte(value) >= list.items.len() && byte(value) != 255 {
                return Err(error::VALUE);
            }
            list.value = byte(value);
        }
        Object::OutputNumber(output) => output.value = value,
        Object::Meter(meter) => meter.value = word(value),
        Object::LinearBar(bar) => bar.value = word(value),
        Object::ArchedBar(bar) => bar.value = word(value),
        Object::NumberVariable(variable) => variable.value = value,
        Object::ObjectPointer(pointer) => {
            if !may_refer(Kind::ObjectPointer, Place::Value, id(value), kind_of_other) {
                return Err(error::VALUE);
            }
            pointer.value = id(value);
        }
        _ => return Err(error::OBJECT),
    }
    Ok(())
}

/// Sets the item at an index of a list. `kind_of_other` is the kind of the item, or `None` if it is missing.
pub(crate) fn change_item(
    object: &mut Object<Vec<u8>>,
    kind_of_other: Option<Kind>,
    index: u8,
    item: ObjectId,
) -> Result<(), u8>
    ensures result { HasResult result (changes.change_item kind_of_other index item (seen object.old)) }
    ensures object { seen object.new ≡ left (seen object.old) (changes.change_item kind_of_other index item (seen object.old)) }
{
    let Object::InputList(list) = object else {
        return Err(error::OBJECT);
    };
    if index >= list.items.len() {
        return Err(error::INDEX);
    }
    if !may_refer(Kind::InputList, Place::Item(index), item, kind_of_other) {
        return Err(error::ITEM);
    }
    list.items.set(index, item);
    Ok(())
}

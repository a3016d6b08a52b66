//! Commands that write a reference: Change Fill Attributes, Change Active Mask and Change Soft Key Mask.

ghost use Rattle.std.specs.Prelude.{◌≡◌};
ghost use Rattle.vt_kinds.specs.Records.{seen};
ghost use Rattle.vt_effects.specs.Changes as changes;
ghost use Rattle.vt_effects.specs.Changes.{HasResult, left};

use crate::error;
use crate::references::{is_one_of, may_refer};
use vt_kinds::{Kind, Kinds, Object, ObjectId, Place};

/// Sets all fields of fill attributes. `kind_of_other` is the kind of the pattern, if that is there.
pub(crate) fn change_fill_attributes(
    object: &mut Object<Vec<u8>>,
    kind_of_other: Option<Kind>,
    fill_type: u8,
    colour: u8,
    pattern: ObjectId,
) -> Result<(), u8>
    ensures result { HasResult result (changes.change_fill_attributes kind_of_other fill_type colour pattern (seen object.old)) }
    ensures object { seen object.new ≡ left (seen object.old) (changes.change_fill_attributes kind_of_other fill_type colour pattern (seen object.old)) }
{
    let Object::FillAttributes(fill_attributes) = object else {
        return Err(error::OBJECT);
    };
    if !may_refer(Kind::FillAttributes, Place::Pattern, pattern, kind_of_other) {
        return Err(error::PATTERN);
    }
    fill_attributes.fill_type = fill_type;
    fill_attributes.colour = colour;
    fill_attributes.pattern = pattern;
    Ok(())
}

/// Sets the active mask. `kind_of_other` is the kind of the mask, or `None` if it is missing.
pub(crate) fn change_active_mask(
    object: &mut Object<Vec<u8>>,
    kind_of_other: Option<Kind>,
    mask: ObjectId,
) -> Result<(), u8>
    ensures result { HasResult result (changes.change_active_mask kind_of_other mask (seen object.old)) }
    ensures object { seen object.new ≡ left (seen object.old) (changes.change_active_mask kind_of_other mask (seen object.old)) }
{
    let Object::WorkingSet(working_set) = object else {
        return Err(error::OBJECT);
    };
    if !is_one_of(Kinds::Masks, kind_of_other) {
        return Err(error::VALUE);
    }
    working_set.active_mask = mask;
    Ok(())
}

/// Sets the soft key mask of a mask. Type 1 is a Data Mask, and type 2 an Alarm Mask; `kind_of_other` is the kind of the soft key
/// mask, or `None` if it is missing.
pub(crate) fn change_soft_key_mask(
    object: &mut Object<Vec<u8>>,
    kind_of_other: Option<Kind>,
    mask_type: u8,
    keys: ObjectId,
) -> Result<(), u8>
    ensures result { HasResult result (changes.change_soft_key_mask kind_of_other mask_type keys (seen object.old)) }
    ensures object { seen object.new ≡ left (seen object.old) (changes.change_soft_key_mask kind_of_other mask_type keys (seen object.old)) }
{
    match object {
        Object::DataMask(data_mask) if mask_type == 1 => {
            if !may_refer(Kind::DataMask, Place::SoftKeyMask, keys, kind_of_other) {
                return Err(error::VALUE);
            }
            data_mask.soft_key_mask = keys;
            Ok(())
        }
        Object::AlarmMask(alarm_mask) if mask_type == 2 => {
            if !may_refer(Kind::AlarmMask, Place::SoftKeyMask, keys, kind_of_other) {
                return Err(error::VALUE);
            }
            alarm_mask.soft_key_mask = keys;
            Ok(())
        }
        _ => Err(error::OBJECT),
    }
}

//! The attributes of working sets, masks, containers and keys.

ghost use Rattle.std.specs.Prelude.{◌≡◌};
ghost use Rattle.vt_effects.specs.Fields.{working_set_with, data_mask_with, alarm_mask_with, container_with, soft_key_mask_with, key_with, button_with};

use crate::numbers::{byte, id, word};
use vt_kinds::{AlarmMask, Button, Container, DataMask, Field, Key, SoftKeyMask, WorkingSet};

pub(crate) fn write_working_set(working_set: &mut WorkingSet, field: Field, value: u32)
    ensures { working_set.new ≡ working_set_with field value working_set.old }
{
    match field {
        Field::Colour => working_set.colour = byte(value),
        Field::Selectable => working_set.selectable = byte(value),
        _ => {}
    }
}

pub(crate) fn write_data_mask(data_mask: &mut DataMask, field: Field, value: u32)
    ensures { data_mask.new ≡ data_mask_with field value data_mask.old }
{
    match field {
        Field::Colour => data_mask.colour = byte(value),
        Field::SoftKeyMask => data_mask.soft_key_mask = id(value),
        _ => {}
    }
}

pub(crate) fn write_alarm_mask(alarm_mask: &mut AlarmMask, field: Field, value: u32)
    ensures { alarm_mask.new ≡ alarm_mask_with field value alarm_mask.old }
{
    match field {
        Field::Colour => alarm_mask.colour = byte(value),
        Field::SoftKeyMask => alarm_mask.soft_key_mask = id(value),
        Field::Priority => alarm_mask.priority = byte(value),
        Field::Acoustic => alarm_mask.acoustic = byte(value),
        _ => {}
    }
}

pub(crate) fn write_container(container: &mut Container, field: Field, value: u32)
    ensures { container.new ≡ container_with field value container.old }
{
    match field {
        Field::Width => container.width = word(value),
        Field::Height => container.height = word(value),
        _ => {}
    }
}

pub(crate) fn write_soft_key_mask(soft_key_mask: &mut SoftKeyMask, field: Field, value: u32)
    ensures { soft_key_mask.new ≡ soft_key_mask_with field value soft_key_mask.old }
{
    match field {
        Field::Colour => soft_key_mask.colour = byte(value),
        _ => {}
    }
}

pub(crate) fn write_key(key: &mut Key, field: Field, value: u32)
    ensures { key.new ≡ key_with field value key.old }
{
    match field {
        Field::Colour => key.colour = byte(value),
        Field::KeyCode => key.key_code = byte(value),
        _ => {}
    }
}

pub(crate) fn write_button(button: &mut Button, field: Field, value: u32)
    ensures { button.new ≡ button_with field value button.old }
{
    match field {
        Field::Width => button.width = word(value),
        Field::Height => button.height = word(value),
        Field::Colour => button.colour = byte(value),
        Field::Border => button.border = byte(value),
        Field::KeyCode => button.key_code = byte(value),
        Field::Options => button.options = byte(value),
        _ => {}
    }
}

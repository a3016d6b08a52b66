//! The attributes of input fields.

ghost use Rattle.std.specs.Prelude.{◌≡◌};
ghost use Rattle.vt_kinds.specs.Records.{seen_input_string};
ghost use Rattle.vt_effects.specs.Fields.{input_boolean_with, input_string_with, input_number_with, input_list_with};

use crate::numbers::{byte, decimals, id, scale, word};
use vt_kinds::{Field, InputBoolean, InputList, InputNumber, InputString};

pub(crate) fn write_input_boolean(input_boolean: &mut InputBoolean, field: Field, value: u32)
    ensures { input_boolean.new ≡ input_boolean_with field value input_boolean.old }
{
    match field {
        Field::Colour => input_boolean.colour = byte(value),
        Field::Width => input_boolean.width = word(value),
        Field::Font => input_boolean.font = id(value),
        Field::Variable => input_boolean.variable = id(value),
        _ => {}
    }
}

pub(crate) fn write_input_string(input_string: &mut InputString<Vec<u8>>, field: Field, value: u32)
    ensures { seen_input_string input_string.new ≡ input_string_with field value (seen_input_string input_string.old) }
{
    match field {
        Field::Width => input_string.width = word(value),
        Field::Height => input_string.height = word(value),
        Field::Colour => input_string.colour = byte(value),
        Field::Font => input_string.font = id(value),
        Field::InputAttributes => input_string.input_attributes = id(value),
        Field::Options => input_string.options = byte(value),
        Field::Variable => input_string.variable = id(value),
        Field::Justification => input_string.justification = byte(value),
        _ => {}
    }
}

pub(crate) fn write_input_number(input_number: &mut InputNumber, field: Field, value: u32)
    ensures { input_number.new ≡ input_number_with field value input_number.old }
{
    match field {
        Field::Width => input_number.width = word(value),
        Field::Height => input_number.height = word(value),
        Field::Colour => input_number.colour = byte(value),
        Field::Font => input_number.font = id(value),
        Field::Options => input_number.options = byte(value),
        Field::Variable => input_number.variable = id(value),
        Field::Min => input_number.min = value,
        Field::Max => input_number.max = value,
        Field::Offset => input_number.offset = value.cast_signed(),
        Field::Scale => input_number.scale = scale(input_number.scale, value),
        Field::Decimals => input_number.decimals = decimals(input_number.decimals, value),
        Field::Format => input_number.format = byte(value),
        Field::Justification => input_number.justification = byte(value),
        _ => {}
    }
}

pub(crate) fn write_input_list(input_list: &mut InputList, field: Field, value: u32)
    ensures { input_list.new ≡ input_list_with field value input_list.old }
{
    match field {
        Field::Width => input_list.width = word(value),
        Field::Height => input_list.height = word(value),
        Field::Variable => input_list.variable = id(value),
        Field::Options => input_list.options = byte(value),
        _ => {}
    }
}

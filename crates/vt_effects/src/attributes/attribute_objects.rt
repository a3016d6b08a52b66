//! The attributes of fonts, lines, fills and inputs, and of pointers.

ghost use Rattle.std.specs.Prelude.{◌≡◌};
ghost use Rattle.vt_kinds.specs.Records.{seen_input_attributes};
ghost use Rattle.vt_effects.specs.Fields.{font_with, line_attributes_with, fill_attributes_with, input_attributes_with, object_pointer_with};

use crate::numbers::{byte, id, word};
use vt_kinds::{Field, FillAttributes, Font, InputAttributes, LineAttributes, ObjectPointer};

pub(crate) fn write_font(font: &mut Font, field: Field, value: u32)
    ensures { font.new ≡ font_with field value font.old }
{
    match field {
        Field::Colour => font.colour = byte(value),
        Field::Size => font.size = byte(value),
        Field::Type => font.font_type = byte(value),
        Field::Style => font.style = byte(value),
        _ => {}
    }
}

pub(crate) fn write_line_attributes(line_attributes: &mut LineAttributes, field: Field, value: u32)
    ensures { line_attributes.new ≡ line_attributes_with field value line_attributes.old }
{
    match field {
        Field::Colour => line_attributes.colour = byte(value),
        Field::Width => line_attributes.width = byte(value),
        Field::LineArt => line_attributes.line_art = word(value),
        _ => {}
    }
}

pub(crate) fn write_fill_attributes(fill_attributes: &mut FillAttributes, field: Field, value: u32)
    ensures { fill_attributes.new ≡ fill_attributes_with field value fill_attributes.old }
{
    match field {
        Field::Type => fill_attributes.fill_type = byte(value),
        Field::Colour => fill_attributes.colour = byte(value),
        Field::Pattern => fill_attributes.pattern = id(value),
        _ => {}
    }
}

pub(crate) fn write_input_attributes(
    input_attributes: &mut InputAttributes<Vec<u8>>,
    field: Field,
    value: u32,
)
    ensures { seen_input_attributes input_attributes.new ≡ input_attributes_with field value (seen_input_attributes input_attributes.old) }
{
    match field {
        Field::ValidationType => input_attributes.validation_type = byte(value),
        _ => {}
    }
}

pub(crate) fn write_object_pointer(object_pointer: &mut ObjectPointer, field: Field, value: u32)
    ensures { object_pointer.new ≡ object_pointer_with field value object_pointer.old }
{
    match field {
        Field::Value => object_pointer.value = id(value),
        _ => {}
    }
}

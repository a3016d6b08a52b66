//! The attributes of output fields and pictures.

ghost use Rattle.std.specs.Prelude.{◌≡◌};
ghost use Rattle.vt_kinds.specs.Records.{seen_output_string, seen_picture};
ghost use Rattle.vt_effects.specs.Fields.{output_string_with, output_number_with, picture_with};

use crate::numbers::{byte, decimals, id, scale, word};
use vt_kinds::{Field, OutputNumber, OutputString, Picture};

pub(crate) fn write_output_string(
    output_string: &mut OutputString<Vec<u8>>,
    field: Field,
    value: u32,
)
    ensures { seen_output_string output_string.new ≡ output_string_with field value (seen_output_string output_string.old) }
{
    match field {
        Field::Width => output_string.width = word(value),
        Field::Height => output_string.height = word(value),
        Field::Colour => output_string.colour = byte(value),
        Field::Font => output_string.font = id(value),
        Field::Options => output_string.options = byte(value),
        Field::Variable => output_string.variable = id(value),
        Field::Justification => output_string.justification = byte(value),
        _ => {}
    }
}

pub(crate) fn write_output_number(output_number: &mut OutputNumber, field: Field, value: u32)
    ensures { output_number.new ≡ output_number_with field value output_number.old }
{
    match field {
        Field::Width => output_number.width = word(value),
        Field::Height => output_number.height = word(value),
        Field::Colour => output_number.colour = byte(value),
        Field::Font => output_number.font = id(value),
        Field::Options => output_number.options = byte(value),
        Field::Variable => output_number.variable = id(value),
        Field::Offset => output_number.offset = value.cast_signed(),
        Field::Scale => output_number.scale = scale(output_number.scale, value),
        Field::Decimals => output_number.decimals = decimals(output_number.decimals, value),
        Field::Format => output_number.format = byte(value),
        Field::Justification => output_number.justification = byte(value),
        _ => {}
    }
}

pub(crate) fn write_picture(picture: &mut Picture<Vec<u8>>, field: Field, value: u32)
    ensures { seen_picture picture.new ≡ picture_with field value (seen_picture picture.old) }
{
    match field {
        Field::Width => picture.width = word(value),
        Field::Options => picture.options = byte(value),
        Field::Transparency => picture.transparency = byte(value),
        _ => {}
    }
}

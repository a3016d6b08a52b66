//! The attributes of meters and bar graphs.

ghost use Rattle.std.specs.Prelude.{◌≡◌};
ghost use Rattle.vt_effects.specs.Fields.{meter_with, linear_bar_with, arched_bar_with};

use crate::numbers::{byte, id, word};
use vt_kinds::{ArchedBar, Field, LinearBar, Meter};

pub(crate) fn write_meter(meter: &mut Meter, field: Field, value: u32)
    ensures { meter.new ≡ meter_with field value meter.old }
{
    match field {
        Field::Width => meter.width = word(value),
        Field::NeedleColour => meter.needle_colour = byte(value),
        Field::BorderColour => meter.border_colour = byte(value),
        Field::ArcColour => meter.arc_colour = byte(value),
        Field::Options => meter.options = byte(value),
        Field::Ticks => meter.ticks = byte(value),
        Field::Start => meter.start = byte(value),
        Field::End => meter.end = byte(value),
        Field::Min => meter.min = word(value),
        Field::Max => meter.max = word(value),
        Field::Variable => meter.variable = id(value),
        _ => {}
    }
}

pub(crate) fn write_linear_bar(linear_bar: &mut LinearBar, field: Field, value: u32)
    ensures { linear_bar.new ≡ linear_bar_with field value linear_bar.old }
{
    match field {
        Field::Width => linear_bar.width = word(value),
        Field::Height => linear_bar.height = word(value),
        Field::Colour => linear_bar.colour = byte(value),
        Field::TargetColour => linear_bar.target_colour = byte(value),
        Field::Options => linear_bar.options = byte(value),
        Field::Ticks => linear_bar.ticks = byte(value),
        Field::Min => linear_bar.min = word(value),
        Field::Max => linear_bar.max = word(value),
        Field::Variable => linear_bar.variable = id(value),
        Field::TargetVariable => linear_bar.target_variable = id(value),
        Field::Target => linear_bar.target = word(value),
        _ => {}
    }
}

pub(crate) fn write_arched_bar(arched_bar: &mut ArchedBar, field: Field, value: u32)
    ensures { arched_bar.new ≡ arched_bar_with field value arched_bar.old }
{
    match field {
        Field::Width => arched_bar.width = word(value),
        Field::Height => arched_bar.height = word(value),
        Field::Colour => arched_bar.colour = byte(value),
        Field::TargetColour => arched_bar.target_colour = byte(value),
        Field::Options => arched_bar.options = byte(value),
        Field::Start => arched_bar.start = byte(value),
        Field::End => arched_bar.end = byte(value),
        Field::BarWidth => arched_bar.bar_width = word(value),
        Field::Min => arched_bar.min = word(value),
        Field::Max => arched_bar.max = word(value),
        Field::Variable => arched_bar.variable = id(value),
        Field::TargetVariable => arched_bar.target_variable = id(value),
        Field::Target => arched_bar.target = word(value),
        _ => {}
    }
}

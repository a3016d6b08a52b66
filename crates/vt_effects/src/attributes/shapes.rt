//! The attributes of shapes.

ghost use Rattle.std.specs.Prelude.{◌≡◌};
ghost use Rattle.vt_effects.specs.Fields.{line_with, rectangle_with, ellipse_with, polygon_with};

use crate::numbers::{byte, id, word};
use vt_kinds::{Ellipse, Field, Line, Polygon, Rectangle};

pub(crate) fn write_line(line: &mut Line, field: Field, value: u32)
    ensures { line.new ≡ line_with field value line.old }
{
    match field {
        Field::LineAttributes => line.line_attributes = id(value),
        Field::Width => line.width = word(value),
        Field::Height => line.height = word(value),
        Field::Direction => line.direction = byte(value),
        _ => {}
    }
}

pub(crate) fn write_rectangle(rectangle: &mut Rectangle, field: Field, value: u32)
    ensures { rectangle.new ≡ rectangle_with field value rectangle.old }
{
    match field {
        Field::LineAttributes => rectangle.line_attributes = id(value),
        Field::Width => rectangle.width = word(value),
        Field::Height => rectangle.height = word(value),
        Field::Suppression => rectangle.suppression = byte(value),
        Field::Fill => rectangle.fill = id(value),
        _ => {}
    }
}

pub(crate) fn write_ellipse(ellipse: &mut Ellipse, field: Field, value: u32)
    ensures { ellipse.new ≡ ellipse_with field value ellipse.old }
{
    match field {
        Field::LineAttributes => ellipse.line_attributes = id(value),
        Field::Width => ellipse.width = word(value),
        Field::Height => ellipse.height = word(value),
        Field::Type => ellipse.ellipse_type = byte(value),
        Field::Start => ellipse.start = byte(value),
        Field::End => ellipse.end = byte(value),
        Field::Fill => ellipse.fill = id(value),
        _ => {}
    }
}

pub(crate) fn write_polygon(polygon: &mut Polygon, field: Field, value: u32)
    ensures { polygon.new ≡ polygon_with field value polygon.old }
{
    match field {
        Field::Width => polygon.width = word(value),
        Field::Height => polygon.height = word(value),
        Field::LineAttributes => polygon.line_attributes = id(value),
        Field::Fill => polygon.fill = id(value),
        Field::Type => polygon.polygon_type = byte(value),
        _ => {}
    }
}

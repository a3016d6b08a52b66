//! Ellipses, and parts of them.

ghost use Rattle.std.specs.Prelude.{◌≡◌, ◌++◌, OnOk};
ghost use Rattle.std.specs.List.{flat_map};
ghost use Rattle.draw_svg.specs.Elements.{point_text, text_of};
ghost use Rattle.draw_shapes.specs.Arcs.{IsOval};
ghost use Rattle.draw_shapes.specs.Ellipses as ellipses;

use crate::pen::{Pen, fill_of, pen_of};
use crate::shapes::arcs::{Oval, push_arc, sweep};
use crate::shapes::lines::{drawn_with, half, half_of};
use draw_svg::{Attribute, Element, Paint, SvgPoint, close_points, empty, open_points, push_point};
use std::alloc::AllocError;
use vt_objects::{Ellipse, Store};

pub(crate) fn draw_ellipse<S: Store>(
    text: &mut Vec<u8>,
    store: &S,
    ellipse: &Ellipse,
) -> Result<(), AllocError>
    ensures { OnOk result (text.new.items ≡ text.old.items ++ text_of (ellipses.ellipse_shapes (S.contents store.now) ellipse.now)) }
{
    let pen = pen_of(store, ellipse.line_attributes);
    let paint = fill_of(store, ellipse.fill, pen);
    if is_whole(ellipse) {
        return draw_whole(text, paint, pen, ellipse);
    }
    match ellipse.ellipse_type {
        1 => draw_arc(text, Element::Polyline, Paint::None, pen, ellipse),
        2 => draw_arc(text, Element::Polygon, paint, pen, ellipse),
        _ => draw_section(text, paint, pen, ellipse),
    }
}

/// Whether an ellipse is drawn whole: one of type 0, and a segment or a section from an angle to itself.
fn is_whole(ellipse: &Ellipse) -> bool
    ensures { result ≡ ellipses.is_whole ellipse.now }
{
    ellipse.ellipse_type == 0
        || (ellipse.ellipse_type > 1 && ellipse.start % 180 == ellipse.end % 180)
}

/// The ellipse of an object: half the width of its line within its area.
fn oval_of(pen: Pen, ellipse: &Ellipse) -> Oval
    ensures is { result ≡ ellipses.oval_of pen ellipse.now }
    ensures inside { IsOval result }
{
    let x = half_of(ellipse.width);
    let y = half_of(ellipse.height);
    Oval {
        x,
        y,
        radius_x: x.saturating_sub(half(pen)),
        radius_y: y.saturating_sub(half(pen)),
    }
}

fn draw_whole(
    text: &mut Vec<u8>,
    paint: Paint,
    pen: Pen,
    ellipse: &Ellipse,
) -> Result<(), AllocError>
    ensures { OnOk result (text.new.items ≡ text.old.items ++ text_of (ellipses.whole paint pen ellipse.now)) }
{
    let oval = oval_of(pen, ellipse);
    let [fill, stroke, width, art] = drawn_with(paint, pen);
    empty(
        text,
        Element::Ellipse,
        &[
            Attribute::CentreX(oval.x),
            Attribute::CentreY(oval.y),
            Attribute::RadiusX(oval.radius_x),
            Attribute::RadiusY(oval.radius_y),
            fill,
            stroke,
            width,
            art,
        ],
    )
}

/// Draws the arc of an ellipse: as a line, or closed and filled.
fn draw_arc(
    text: &mut Vec<u8>,
    element: Element,
    paint: Paint,
    pen: Pen,
    ellipse: &Ellipse,
) -> Result<(), AllocError>
    ensures { OnOk result (text.new.items ≡ text.old.items ++ text_of (ellipses.arc_shape element paint pen ellipse.now)) }
{
    open_points(text, element, &drawn_with(paint, pen))?;
    push_whole_arc(text, pen, ellipse)?;
    close_points(text)
}

/// Draws a section of an ellipse, which is closed through its centre.
fn draw_section(
    text: &mut Vec<u8>,
    paint: Paint,
    pen: Pen,
    ellipse: &Ellipse,
) -> Result<(), AllocError>
    ensures { OnOk result (text.new.items ≡ text.old.items ++ text_of (ellipses.section paint pen ellipse.now)) }
{
    open_points(text, Element::Polygon, &drawn_with(paint, pen))?;
    push_whole_arc(text, pen, ellipse)?;
    let oval = oval_of(pen, ellipse);
    push_point(
        text,
        SvgPoint {
            x: oval.x,
            y: oval.y,
        },
    )?;
    close_points(text)
}

fn push_whole_arc(text: &mut Vec<u8>, pen: Pen, ellipse: &Ellipse) -> Result<(), AllocError>
    ensures { OnOk result (text.new.items ≡ text.old.items ++ flat_map point_text (ellipses.arc_of pen ellipse.now)) }
{
    let steps = sweep(ellipse.start, ellipse.end);
    push_arc(text, oval_of(pen, ellipse), ellipse.start, steps)
}

//! Lines, rectangles and polygons.

ghost use Rattle.std.specs.Prelude.{◌≡◌, ◌≤◌, ◌*◌, [], ◌∷◌, ◌++◌, map, OnOk};
ghost use Rattle.std.specs.List.{flat_map};
ghost use Rattle.draw_svg.specs.declared.attribute.Paint.TheVariants.{None};
ghost use Rattle.draw_svg.specs.declared.element.Element.TheVariants.{Polyline, Rect};
ghost use Rattle.draw_svg.specs.Elements.{emptied, led_along, point_text, text_of};
ghost use Rattle.draw_shapes.specs.Pens.{drawn_with, far, half};
ghost use Rattle.draw_shapes.specs.Lines.{inside_attributes, line_attributes, line_points, line_shapes, middle, point, polygon_shapes, rectangle_shapes, sides};

use crate::pen::{NO_PEN, Pen, fill_of, pen_of};
use draw_svg::{
    Attribute, Element, Paint, SvgPoint, along, close_points, empty, open_points, push_point,
};
use std::alloc::AllocError;
use vt_objects::{Line, Point, Polygon, Rectangle, Store};

/// The attributes of a shape with its inside and its lines.
pub(crate) fn drawn_with(paint: Paint, pen: Pen) -> [Attribute; 4]
    ensures { result ≡ drawn_with paint pen }
{
    let width = u16::from(pen.width) * 10;
    [
        Attribute::Fill(paint),
        Attribute::Stroke(pen.paint),
        Attribute::StrokeWidth(u32::from(width)),
        Attribute::LineArt(pen.art, width),
    ]
}

/// A length in tenths of a pixel.
pub(crate) fn tenths(length: u16) -> u32
    ensures { result ≡ 10 * length }
{
    u32::from(length) * 10
}

/// Half of a length, in tenths of a pixel.
pub(crate) fn half_of(length: u16) -> u32
    ensures is { result ≡ 5 * length }
    ensures most { result ≤ 327675 }
{
    u32::from(length) * 5
}

/// Half the width of a line, in tenths of a pixel.
pub(crate) fn half(pen: Pen) -> u32
    ensures { result ≡ half pen }
{
    u32::from(pen.width) * 5
}

/// The far end of a line in an area, in tenths of a pixel.
fn far(pen: Pen, length: u16) -> u32
    ensures { result ≡ far pen length }
{
    half(pen).max((u32::from(length) * 10).saturating_sub(half(pen)))
}

pub(crate) fn draw_line<S: Store>(
    text: &mut Vec<u8>,
    store: &S,
    line: &Line,
) -> Result<(), AllocError>
    ensures { OnOk result (text.new.items ≡ text.old.items ++ text_of (line_shapes (S.contents store.now) line.now)) }
{
    let pen = pen_of(store, line.line_attributes);
    along(
        text,
        Element::Polyline,
        &line_attributes(pen),
        &line_points(pen, line),
    )
}

/// The attributes of a line alone, whose ends reach its corners.
fn line_attributes(pen: Pen) -> [Attribute; 5]
    ensures { result ≡ line_attributes pen }
{
    let [fill, stroke, width, art] = drawn_with(Paint::None, pen);
    [fill, stroke, width, art, Attribute::LineEnds(pen.art)]
}

/// The ends of a line: from the upper left corner to the lower right one, or from the lower left to the upper right.
fn line_points(pen: Pen, line: &Line) -> [SvgPoint; 2]
    ensures { result ≡ line_points pen line.now }
{
    let near = half(pen);
    let (right, bottom) = (far(pen, line.width), far(pen, line.height));
    let (first, last) = if line.direction == 0 {
        (near, bottom)
    } else {
        (bottom, near)
    };
    [
        SvgPoint { x: near, y: first },
        SvgPoint { x: right, y: last },
    ]
}

pub(crate) fn draw_rectangle<S: Store>(
    text: &mut Vec<u8>,
    store: &S,
    rectangle: &Rectangle,
) -> Result<(), AllocError>
    ensures { OnOk result (text.new.items ≡ text.old.items ++ text_of (rectangle_shapes (S.contents store.now) rectangle.now)) }
{
    let pen = pen_of(store, rectangle.line_attributes);
    let paint = fill_of(store, rectangle.fill, pen);
    draw_inside(text, paint, rectangle)?;
    draw_sides(text, pen, rectangle)
}

fn draw_inside(text: &mut Vec<u8>, paint: Paint, rectangle: &Rectangle) -> Result<(), AllocError>
    ensures { OnOk result (text.new.items ≡ text.old.items ++ emptied Rect (inside_attributes paint rectangle.now)) }
{
    empty(
        text,
        Element::Rect,
        &[
            Attribute::Width(tenths(rectangle.width)),
            Attribute::Height(tenths(rectangle.height)),
            Attribute::Fill(paint),
        ],
    )
}

/// Draws the sides of a rectangle that are not suppressed: the upper, the right, the lower and the left one.
fn draw_sides(text: &mut Vec<u8>, pen: Pen, rectangle: &Rectangle) -> Result<(), AllocError>
    ensures { OnOk result (text.new.items ≡ text.old.items ++ text_of (sides pen rectangle.now)) }
{
    let (near, width, height) = (half(pen), tenths(rectangle.width), tenths(rectangle.height));
    let (right, bottom) = (far(pen, rectangle.width), far(pen, rectangle.height));
    let sides = rectangle.suppression;
    draw_side(
        text,
        if sides % 2 == 1 { NO_PEN } else { pen },
        at(0, near),
        at(width, near),
    )?;
    draw_side(
        text,
        if sides / 2 % 2 == 1 { NO_PEN } else { pen },
        at(right, 0),
        at(right, height),
    )?;
    draw_side(
        text,
        if sides / 4 % 2 == 1 { NO_PEN } else { pen },
        at(0, bottom),
        at(width, bottom),
    )?;
    draw_side(
        text,
        if sides / 8 % 2 == 1 { NO_PEN } else { pen },
        at(near, 0),
        at(near, height),
    )
}

fn draw_side(
    text: &mut Vec<u8>,
    pen: Pen,
    first: SvgPoint,
    last: SvgPoint,
) -> Result<(), AllocError>
    ensures { OnOk result (text.new.items ≡ text.old.items ++ led_along Polyline (drawn_with None pen) (first ∷ last ∷ [])) }
{
    along(
        text,
        Element::Polyline,
        &drawn_with(Paint::None, pen),
        &[first, last],
    )
}

fn at(x: u32, y: u32) -> SvgPoint
    ensures { result ≡ point x y }
{
    SvgPoint { x, y }
}

pub(crate) fn draw_polygon<S: Store>(
    text: &mut Vec<u8>,
    store: &S,
    polygon: &Polygon,
) -> Result<(), AllocError>
    ensures { OnOk result (text.new.items ≡ text.old.items ++ text_of (polygon_shapes (S.contents store.now) polygon.now)) }
{
    let pen = pen_of(store, polygon.line_attributes);
    if polygon.polygon_type == OPEN {
        open_points(text, Element::Polyline, &drawn_with(Paint::None, pen))?;
    } else {
        let paint = fill_of(store, polygon.fill, pen);
        open_points(text, Element::Polygon, &drawn_with(paint, pen))?;
    }
    push_points(text, polygon.points.as_slice())?;
    close_points(text)
}

/// The type of an open polygon.
const OPEN: u8 = 3;

/// Appends the points of a polygon, each in the middle of its pixel.
fn push_points(text: &mut Vec<u8>, points: &[Point]) -> Result<(), AllocError>
    ensures { OnOk result (text.new.items ≡ text.old.items ++ flat_map point_text (map middle points.now)) }
{
    for point in points {
        push_point(text, middle(*point))?;
    }
    Ok(())
}

fn middle(point: Point) -> SvgPoint
    ensures { result ≡ middle point }
{
    SvgPoint {
        x: tenths(point.x) + 5,
        y: tenths(point.y) + 5,
    }
}

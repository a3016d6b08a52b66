//! The values that meters and bars show, and the lines that they are drawn with.

ghost use Rattle.std.specs.Prelude.{◌≡◌, ◌≤◌, ◌<◌, ◌*◌, ◌++◌, OnOk};
ghost use Rattle.draw_svg.specs.declared.element.Element.TheVariants.{Polyline};
ghost use Rattle.draw_svg.specs.Elements.{text_of, Along, None};
ghost use Rattle.draw_shapes.specs.Arcs.{arc, IsOval};
ghost use Rattle.draw_shapes.specs.Gauges.{line, share, shown, plain_line, tick_at, turned};

use crate::shapes::arcs::{Oval, STEPS, push_arc};
use draw_svg::{Attribute, Element, Paint, SvgPoint, along, close_points, open_points};
use std::alloc::AllocError;
use vt_objects::{ObjectId, Store};
use vt_shown::number_shown;

/// The share of a span at which a value is in a range. 0 in an empty range.
pub(crate) fn share(span: u32, lowest: u16, greatest: u16, value: u32) -> u32
    requires { span ≤ 655350 }
    ensures is { result ≡ share span lowest greatest value }
    ensures most { result ≤ span }
{
    if greatest <= lowest {
        return 0;
    }
    let inside = value.max(u32::from(lowest)).min(u32::from(greatest));
    let above = u64::from(inside - u32::from(lowest));
    (u64::from(span) * above / u64::from(greatest - lowest)) as u32
}

/// The number that an object shows. 0 if its variable is missing.
pub(crate) fn shown<S: Store>(store: &S, variable: ObjectId, value: u16) -> u32
    ensures { result ≡ shown (S.contents store.now) variable value }
{
    match number_shown(store, variable, u32::from(value)) {
        Some(number) => number,
        None => 0,
    }
}

/// The place of a tick among others, the first at 0 and the last at the end of a span.
pub(crate) fn tick_at(span: u32, ticks: u8, i: u8) -> u32
    requires span { span ≤ 655350 }
    requires tick { i < ticks }
    ensures is { result ≡ tick_at span ticks i }
    ensures most { result ≤ span }
{
    if ticks <= 1 {
        return 0;
    }
    span * u32::from(i) / u32::from(ticks - 1)
}

/// The angle after some steps of a sweep: counterclockwise from its start, or clockwise from its end.
pub(crate) fn turned(clockwise: bool, start: u8, steps: u8, n: u32) -> u8
    requires { n ≤ 180 }
    ensures { result ≡ turned clockwise start steps n }
{
    let after = if clockwise {
        u32::from(steps).saturating_sub(n)
    } else {
        n
    };
    ((u32::from(start % STEPS) + after) % u32::from(STEPS)) as u8
}

/// The attributes of a line of a colour and a width.
pub(crate) fn plain_line(colour: u8, width: u32) -> [Attribute; 3]
    ensures { result ≡ plain_line colour width }
{
    [
        Attribute::Fill(Paint::None),
        Attribute::Stroke(Paint::Colour(colour)),
        Attribute::StrokeWidth(width),
    ]
}

/// Draws a line from a point to another.
pub(crate) fn draw_between(
    text: &mut Vec<u8>,
    attributes: &[Attribute],
    first: SvgPoint,
    last: SvgPoint,
) -> Result<(), AllocError>
    ensures { OnOk result (text.new.items ≡ text.old.items ++ text_of (line attributes.now first last)) }
{
    along(text, Element::Polyline, attributes, &[first, last])
}

/// Draws an arc, from an angle counterclockwise.
pub(crate) fn draw_arc(
    text: &mut Vec<u8>,
    attributes: &[Attribute],
    oval: Oval,
    start: u8,
    steps: u8,
) -> Result<(), AllocError>
    requires { IsOval oval }
    ensures { OnOk result (text.new.items ≡ text.old.items ++ text_of (Along Polyline attributes.now (arc oval start steps) None)) }
{
    open_points(text, Element::Polyline, attributes)?;
    push_arc(text, oval, start, steps)?;
    close_points(text)
}

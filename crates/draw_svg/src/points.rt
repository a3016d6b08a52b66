//! Lines along points.

ghost use Rattle.std.specs.Prelude.{◌≡◌, ◌++◌, OnOk, codes};
ghost use Rattle.std.specs.List.{flat_map};
ghost use Rattle.draw_svg.specs.Elements.{begun, led_along, point_text};

use crate::attribute::Attribute;
use crate::element::{Element, begin};
use itoa::Buffer;
use std::alloc::AllocError;

/// A point, from the upper left corner.
#[derive(Clone, Copy, PartialEq, Eq)]
pub struct SvgPoint {
    /// The distance from the left edge.
    pub x: u32,
    /// The distance from the upper edge.
    pub y: u32,
}

/// Appends lines along points, `Element::Polyline` or `Element::Polygon`.
///
/// # Errors
/// `AllocError` when an allocation is refused; a part of the element may then be appended.
pub fn along(
    out: &mut Vec<u8>,
    element: Element,
    attributes: &[Attribute],
    points: &[SvgPoint],
) -> Result<(), AllocError>
    ensures { OnOk result (out.new.items ≡ out.old.items ++ led_along element attributes.now points.now) }
{
    open_points(out, element, attributes)?;
    push_points(out, points)?;
    close_points(out)
}

/// Appends the beginning of lines along points: `push_point` appends each, and `close_points` the end.
///
/// # Errors
/// `AllocError` when an allocation is refused; a part of the element may then be appended.
pub fn open_points(
    out: &mut Vec<u8>,
    element: Element,
    attributes: &[Attribute],
) -> Result<(), AllocError>
    ensures { OnOk result (out.new.items ≡ out.old.items ++ (begun element attributes.now ++ codes " points=\"")) }
{
    begin(out, element, attributes)?;
    out.extend_from_slice(b" points=\"")
}

/// Appends a point of lines.
///
/// # Errors
/// `AllocError` when an allocation is refused; a part of the point may then be appended.
pub fn push_point(out: &mut Vec<u8>, point: SvgPoint) -> Result<(), AllocError>
    ensures { OnOk result (out.new.items ≡ out.old.items ++ point_text point) }
{
    out.extend_from_slice(Buffer::new().format(point.x).as_bytes())?;
    out.extend_from_slice(b" ")?;
    out.extend_from_slice(Buffer::new().format(point.y).as_bytes())?;
    out.extend_from_slice(b" ")
}

/// Appends the end of lines along points.
///
/// # Errors
/// `AllocError` when an allocation is refused; a part of the end may then be appended.
pub fn close_points(out: &mut Vec<u8>) -> Result<(), AllocError>
    ensures { OnOk result (out.new.items ≡ out.old.items ++ codes "\"/>") }
{
    out.extend_from_slice(b"\"/>")
}

fn push_points(out: &mut Vec<u8>, points: &[SvgPoint]) -> Result<(), AllocError>
    ensures { OnOk result (out.new.items ≡ out.old.items ++ flat_map point_text points.now) }
{
    for each in points {
        push_point(out, *each)?;
    }
    Ok(())
}

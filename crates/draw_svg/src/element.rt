//! The tags of elements.

ghost use Rattle.std.specs.Prelude.{◌≡◌, ◌++◌, OnOk};
ghost use Rattle.draw_svg.specs.Elements.{begun, closed, emptied, name, opened};

use crate::attribute::{Attribute, push_attribute};
use std::alloc::AllocError;

/// An element of SVG.
#[derive(Clone, Copy, PartialEq, Eq)]
pub enum Element {
    /// A picture, or an area within one that has its own coordinates. What is outside of it is not shown.
    Svg,
    /// A rectangle.
    Rect,
    /// An ellipse.
    Ellipse,
    /// Lines along points.
    Polyline,
    /// Lines along points and back to the first.
    Polygon,
    /// Characters on a line.
    Text,
    /// A picture to be shown elsewhere.
    Symbol,
    /// A picture that is shown here.
    Use,
    /// A tile that fills shapes.
    Pattern,
}

/// Appends the tag that opens an element.
///
/// # Errors
/// `AllocError` when an allocation is refused; a part of the tag may then be appended.
pub fn open(out: &mut Vec<u8>, element: Element, attributes: &[Attribute]) -> Result<(), AllocError>
    ensures { OnOk result (out.new.items ≡ out.old.items ++ opened element attributes.now) }
{
    begin(out, element, attributes)?;
    out.extend_from_slice(b">")
}

/// Appends the tag that closes an element.
///
/// # Errors
/// `AllocError` when an allocation is refused; a part of the tag may then be appended.
pub fn close(out: &mut Vec<u8>, element: Element) -> Result<(), AllocError>
    ensures { OnOk result (out.new.items ≡ out.old.items ++ closed element) }
{
    out.extend_from_slice(b"</")?;
    out.extend_from_slice(name(element).as_bytes())?;
    out.extend_from_slice(b">")
}

/// Appends an element with nothing in it.
///
/// # Errors
/// `AllocError` when an allocation is refused; a part of the tag may then be appended.
pub fn empty(
    out: &mut Vec<u8>,
    element: Element,
    attributes: &[Attribute],
) -> Result<(), AllocError>
    ensures { OnOk result (out.new.items ≡ out.old.items ++ emptied element attributes.now) }
{
    begin(out, element, attributes)?;
    out.extend_from_slice(b"/>")
}

/// Appends the name and the attributes of an element.
#[tactic(auto, unfolding(crate::specs::Elements::begun))]
pub(crate) fn begin(
    out: &mut Vec<u8>,
    element: Element,
    attributes: &[Attribute],
) -> Result<(), AllocError>
    ensures { OnOk result (out.new.items ≡ out.old.items ++ begun element attributes.now) }
{
    out.extend_from_slice(b"<")?;
    out.extend_from_slice(name(element).as_bytes())?;
    for attribute in attributes {
        push_attribute(out, attribute)?;
    }
    Ok(())
}

fn name(element: Element) -> &'static str
    ensures { result.now ≡ name element }
{
    match element {
        Element::Svg => "svg",
        Element::Rect => "rect",
        Element::Ellipse => "ellipse",
        Element::Polyline => "polyline",
        Element::Polygon => "polygon",
        Element::Text => "text",
        Element::Symbol => "symbol",
        Element::Use => "use",
        Element::Pattern => "pattern",
    }
}

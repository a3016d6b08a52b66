//! The areas of elements.

ghost use Rattle.std.specs.Prelude.{◌≡◌};
ghost use Rattle.vt_kinds.specs.Records.{seen};
ghost use Rattle.draw_picture.specs.Frames.{fine_area, frame_of};
ghost use Rattle.draw_picture.specs.Listings.{height_in, width_in};

use check_needs::{Area, Sizes, extent_of};
use vt_objects::Object;

/// The area of an element, in pixels.
#[derive(Clone, Copy, PartialEq, Eq)]
pub(crate) enum Framing {
    /// That of the element around it.
    Whole,
    /// An area outside of which nothing is shown.
    Clipped { width: u32, height: u32 },
    /// An area with coordinates in tenths of a pixel. Lines may reach out of it.
    Fine(Area),
}

/// The area of an object as an element.
pub(crate) fn frame_of(sizes: Sizes, object: &Object<Vec<u8>>) -> Framing
    ensures { result ≡ frame_of sizes (seen object.now) }
{
    if let Some(area) = fine_area(object) {
        return Framing::Fine(area);
    }
    if let Object::Key(_) = object {
        return Framing::Clipped {
            width: u32::from(sizes.key.width),
            height: u32::from(sizes.key.height),
        };
    }
    match extent_of(object) {
        Some(extent) => Framing::Clipped {
            width: extent.width,
            height: extent.height,
        },
        None => Framing::Whole,
    }
}

/// The width of a frame.
pub(crate) fn width_in(frame: Framing) -> u32
    ensures { result ≡ width_in frame }
{
    match frame {
        Framing::Whole => 0,
        Framing::Clipped { width, .. } => width,
        Framing::Fine(area) => u32::from(area.width).max(1),
    }
}

/// The height of a frame.
pub(crate) fn height_in(frame: Framing) -> u32
    ensures { result ≡ height_in frame }
{
    match frame {
        Framing::Whole => 0,
        Framing::Clipped { height, .. } => height,
        Framing::Fine(area) => u32::from(area.height).max(1),
    }
}

/// The area of a shape, a meter or a bar.
fn fine_area(object: &Object<Vec<u8>>) -> Option<Area>
    ensures { result ≡ fine_area (seen object.now) }
{
    let (width, height) = match object {
        Object::Line(o) => (o.width, o.height),
        Object::Rectangle(o) => (o.width, o.height),
        Object::Ellipse(o) => (o.width, o.height),
        Object::Polygon(o) => (o.width, o.height),
        Object::Meter(o) => (o.width, o.width),
        Object::LinearBar(o) => (o.width, o.height),
        Object::ArchedBar(o) => (o.width, o.height),
        _ => return None,
    };
    Some(Area { width, height })
}

//! The children of masks, containers, buttons and keys, by the areas that they take.

ghost use Rattle.std.specs.Prelude.{◌≡◌, ◌≤◌, length, Some, IfSome};
ghost use Rattle.std.specs.Option.{option_map};
ghost use Rattle.vt_kinds.specs.Records.{seen};
ghost use Rattle.check_needs.specs.Elements as elements;

use crate::sizes::{Area, Sizes};
use crate::warning::PlacedElement;
use vt_objects::{Child, Object, ObjectId, SortedStore};
use vt_shown::resolve;

/// The area that an object takes, in pixels.
#[derive(Clone, Copy, PartialEq, Eq)]
pub struct Extent {
    /// The width.
    pub width: u32,
    /// The height.
    pub height: u32,
}

/// The area in which an object shows its children, and the children. A mask has the terminal's area for masks, and a key its area for keys.
pub(crate) fn frame_of(object: &Object<Vec<u8>>, sizes: Sizes) -> Option<(Area, &[Child])>
    ensures frame { option_map (λ frame. (frame.0, frame.1.now)) result ≡ elements.frame_of sizes (seen object.now) }
    ensures most { IfSome result (λ frame. length frame.1.now ≤ 255) }
{
    match object {
        Object::DataMask(o) => framed(sizes.mask, o.children.as_slice()),
        Object::AlarmMask(o) => framed(sizes.mask, o.children.as_slice()),
        Object::Key(o) => framed(sizes.key, o.children.as_slice()),
        Object::Container(o) => framed(
            Area {
                width: o.width,
                height: o.height,
            },
            o.children.as_slice(),
        ),
        Object::Button(o) => framed(
            Area {
                width: o.width,
                height: o.height,
            },
            o.children.as_slice(),
        ),
        _ => None,
    }
}

fn framed(area: Area, children: &[Child]) -> Option<(Area, &[Child])>
    requires { length children.now ≤ 255 }
    ensures frame { option_map (λ frame. (frame.0, frame.1.now)) result ≡ elements.framed area children.now }
    ensures most { IfSome result (λ frame. length frame.1.now ≤ 255) }
{
    Some((area, children))
}

/// The element of a child: of its object, or of the value of its pointer.
pub(crate) fn element(
    objects: &SortedStore,
    parent: ObjectId,
    index: u8,
    child: Child,
) -> Option<PlacedElement>
    ensures element { result ≡ elements.element objects.now parent index child }
    ensures most { IfSome result (λ e. elements.IsSized e.width e.height) }
{
    match resolve(objects, child.id) {
        None => None,
        Some(found) => {
            let Extent { width, height } = extent_of(found.1)?;
            Some(PlacedElement {
                parent,
                index,
                id: found.0,
                x: child.x,
                y: child.y,
                width,
                height,
            })
        }
    }
}

/// Whether an element begins or ends outside of an area.
pub(crate) fn is_outside(element: &PlacedElement, area: Area) -> bool
    ensures { result ≡ elements.is_outside area element.now }
{
    element.x < 0
        || element.y < 0
        || i64::from(element.x) + i64::from(element.width) > i64::from(area.width)
        || i64::from(element.y) + i64::from(element.height) > i64::from(area.height)
}

/// The area that a drawn object takes, or `None` for a kind without a size (docs/PROFILE.md, "Warnings").
pub fn extent_of(object: &Object<Vec<u8>>) -> Option<Extent>
    ensures extent { result ≡ elements.extent_of (seen object.now) }
    ensures most { IfSome result (λ e. elements.IsSized e.width e.height) }
{
    match object {
        Object::Container(o) => sized(o.width, o.height),
        Object::Button(o) => sized(o.width, o.height),
        Object::InputBoolean(o) => sized(o.width, o.width),
        Object::InputString(o) => sized(o.width, o.height),
        Object::InputNumber(o) => sized(o.width, o.height),
        Object::InputList(o) => sized(o.width, o.height),
        Object::OutputString(o) => sized(o.width, o.height),
        Object::OutputNumber(o) => sized(o.width, o.height),
        Object::Line(o) => sized(o.width, o.height),
        Object::Rectangle(o) => sized(o.width, o.height),
        Object::Ellipse(o) => sized(o.width, o.height),
        Object::Polygon(o) => sized(o.width, o.height),
        Object::Meter(o) => sized(o.width, o.width),
        Object::LinearBar(o) => sized(o.width, o.height),
        Object::ArchedBar(o) => sized(o.width, o.height),
        Object::Picture(o) => Some(Extent {
            width: u32::from(o.width),
            height: scaled_height(o.width, o.actual_width, o.actual_height),
        }),
        _ => None,
    }
}

fn sized(width: u16, height: u16) -> Option<Extent>
    ensures extent { result ≡ Some (elements.extent width height) }
    ensures most { IfSome result (λ e. elements.IsSized e.width e.height) }
{
    Some(Extent {
        width: u32::from(width),
        height: u32::from(height),
    })
}

/// The height of a picture whose image is scaled to its width.
fn scaled_height(width: u16, actual_width: u16, actual_height: u16) -> u32
    ensures height { result ≡ elements.scaled_height width actual_width actual_height }
    ensures most { result ≤ 4294836225 }
{
    if actual_width == 0 {
        return 0;
    }
    u32::from(actual_height) * u32::from(width) / u32::from(actual_width)
}

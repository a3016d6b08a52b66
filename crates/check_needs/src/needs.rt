//! What a pool needs of a terminal.

ghost use Rattle.std.specs.Prelude.{◌≡◌, ◌≤◌, IfSome};
ghost use Rattle.vt_kinds.specs.Records.{seen};
ghost use Rattle.check_needs.specs.Needs as spec;
ghost use Rattle.check_needs.specs.Elements as elements;

use crate::elements::{Extent, element};
use crate::sizes::{Area, Sizes};
use crate::warning::PlacedElement;
use arrayvec::ArrayVec;
use vt_objects::{Child, Kind, Object, ObjectId, SortedStore};

/// What the objects of a pool need of a terminal. Areas are in pixels.
#[derive(Clone, Copy, PartialEq, Eq)]
pub struct Needs {
    /// How far the children of a mask reach to the right and down.
    pub mask: Extent,
    /// How far the children of a key reach to the right and down.
    pub key: Extent,
    /// The most keys of a soft key mask.
    pub keys: u8,
    /// The greatest colour number.
    pub colour: u8,
}

/// Something of which a terminal has less than a pool needs.
#[derive(Clone, Copy, Default, PartialEq, Eq)]
pub enum Lack {
    /// The area of a mask.
    #[default]
    MaskArea,
    /// The area of a key.
    KeyArea,
    /// The keys of a soft key mask.
    Keys,
}

/// What the objects of a pool need of a terminal (docs/PROFILE.md, "Needs").
pub fn needs_of(objects: &SortedStore) -> Needs
    ensures { result ≡ spec.needs_of objects.now }
{
    let mut needs = Needs {
        mask: NO_EXTENT,
        key: NO_EXTENT,
        keys: 0,
        colour: 0,
    };
    for (_, object) in objects.entries() {
        needs = both(needs, needs_at(objects, object));
    }
    needs
}

const NO_EXTENT: Extent = Extent {
    width: 0,
    height: 0,
};

/// What two parts of a pool need together.
fn both(a: Needs, b: Needs) -> Needs
    ensures { result ≡ spec.both a b }
{
    Needs {
        mask: both_extents(a.mask, b.mask),
        key: both_extents(a.key, b.key),
        keys: a.keys.max(b.keys),
        colour: a.colour.max(b.colour),
    }
}

fn both_extents(a: Extent, b: Extent) -> Extent
    ensures { result ≡ spec.both_extents a b }
{
    Extent {
        width: a.width.max(b.width),
        height: a.height.max(b.height),
    }
}

/// What one object needs.
fn needs_at(objects: &SortedStore, object: &Object<Vec<u8>>) -> Needs
    ensures { result ≡ spec.needs_at objects.now (seen object.now) }
{
    Needs {
        mask: extent_needed(objects, mask_children(object)),
        key: extent_needed(objects, key_children(object)),
        keys: key_count(object),
        colour: colour_of(object),
    }
}

/// The area in which children are whole, to the right and below.
fn extent_needed(objects: &SortedStore, children: &[Child]) -> Extent
    ensures { result ≡ spec.extent_needed objects.now children.now }
{
    let mut extent = NO_EXTENT;
    for child in children {
        extent = both_extents(extent, end_of(element(objects, ObjectId::NULL, 0, *child)));
    }
    extent
}

/// The right and the lower end of an element; 0 if it ends before the area, or if there is no element.
fn end_of(element: Option<PlacedElement>) -> Extent
    requires { IfSome element (λ e. elements.IsSized e.width e.height) }
    ensures { result ≡ spec.ends_of element }
{
    match element {
        None => NO_EXTENT,
        Some(element) => Extent {
            width: end(element.x, element.width),
            height: end(element.y, element.height),
        },
    }
}

fn end(position: i16, size: u32) -> u32
    requires { size ≤ 4294836225 }
    ensures { result ≡ spec.end_of position size }
{
    if position < 0 {
        size.saturating_sub(u32::from(position.unsigned_abs()))
    } else {
        size + u32::from(position.unsigned_abs())
    }
}

pub(crate) fn mask_children(object: &Object<Vec<u8>>) -> &[Child]
    ensures { result.now ≡ spec.mask_children (seen object.now) }
{
    match object {
        Object::DataMask(o) => o.children.as_slice(),
        Object::AlarmMask(o) => o.children.as_slice(),
        _ => &[],
    }
}

pub(crate) fn key_children(object: &Object<Vec<u8>>) -> &[Child]
    ensures { result.now ≡ spec.key_children (seen object.now) }
{
    let Object::Key(o) = object else {
        return &[];
    };
    o.children.as_slice()
}

/// The number of keys of a soft key mask; 0 for other objects.
pub(crate) fn key_count(object: &Object<Vec<u8>>) -> u8
    ensures { result ≡ spec.key_count (seen object.now) }
{
    let Object::SoftKeyMask(o) = object else {
        return 0;
    };
    o.keys.len()
}

/// The greatest colour number of an object; 0 for an object without a colour.
pub(crate) fn colour_of(object: &Object<Vec<u8>>) -> u8
    ensures { result ≡ spec.colour_of (seen object.now) }
{
    match object {
        Object::WorkingSet(o) => o.colour,
        Object::DataMask(o) => o.colour,
        Object::AlarmMask(o) => o.colour,
        Object::SoftKeyMask(o) => o.colour,
        Object::Key(o) => o.colour,
        Object::Button(o) => o.colour.max(o.border),
        Object::InputBoolean(o) => o.colour,
        Object::InputString(o) => o.colour,
        Object::InputNumber(o) => o.colour,
        Object::OutputString(o) => o.colour,
        Object::OutputNumber(o) => o.colour,
        Object::Meter(o) => o.needle_colour.max(o.border_colour.max(o.arc_colour)),
        Object::LinearBar(o) => o.colour.max(o.target_colour),
        Object::ArchedBar(o) => o.colour.max(o.target_colour),
        Object::Picture(o) => format_colour(o.format),
        Object::Font(o) => o.colour,
        Object::LineAttributes(o) => o.colour,
        Object::FillAttributes(o) => o.colour,
        _ => 0,
    }
}

/// The greatest colour number of a picture's format.
fn format_colour(format: u8) -> u8
    ensures { result ≡ spec.format_colour format }
{
    match format {
        0 => 1,
        1 => 15,
        _ => 255,
    }
}

/// Whether a font of the objects has a size, by its number.
pub fn has_font(objects: &SortedStore, size: u8) -> bool
    ensures { result ≡ spec.has_font objects.now size }
{
    for (_, object) in objects.entries() {
        if is_font_of(object, size) {
            return true;
        }
    }
    false
}

fn is_font_of(object: &Object<Vec<u8>>, size: u8) -> bool
    ensures { result ≡ spec.is_font_of size (seen object.now) }
{
    matches!(object, Object::Font(o) if o.size == size)
}

/// Whether an object is of a kind.
pub fn has_kind(objects: &SortedStore, kind: Kind) -> bool
    ensures { result ≡ spec.has_kind objects.now kind }
{
    for (_, object) in objects.entries() {
        if object.kind().number() == kind.number() {
            return true;
        }
    }
    false
}

/// What a terminal with these sizes lacks for a pool. Empty if the pool fits.
pub fn lacks(needs: &Needs, sizes: Sizes) -> ArrayVec<Lack, 3>
    ensures { result.items ≡ spec.lacks_of needs.now sizes }
{
    let mut lacks = ArrayVec::new();
    if exceeds(needs.mask, sizes.mask) {
        lacks.push(Lack::MaskArea);
    }
    if exceeds(needs.key, sizes.key) {
        lacks.push(Lack::KeyArea);
    }
    if needs.keys > sizes.keys {
        lacks.push(Lack::Keys);
    }
    lacks
}

fn exceeds(extent: Extent, area: Area) -> bool
    ensures { result ≡ spec.exceeds extent area }
{
    extent.width > u32::from(area.width) || extent.height > u32::from(area.height)
}

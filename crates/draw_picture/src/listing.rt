//! The elements of a picture as a list, in the order in which they are drawn. A list has at most 2,000 elements, so that a walk ends soon,
//! however many paths there are.

ghost use Rattle.std.specs.Prelude.{◌≡◌, ◌≤◌, ◌<◌, ◌+◌, ◌+ℤ◌, ◌^◌, ◌*◌, ◌-◌, nat_abs, ℕ, pos, Some, None, length, IfOk, OnOk};
ghost use Rattle.std.specs.FinMap as finite;
ghost use Rattle.std.specs.Int.{int_max, int_min};
ghost use Rattle.vt_kinds.specs.declared.object.Object.TheVariants as objects;
ghost use Rattle.vt_kinds.specs.Records.{seen};
ghost use Rattle.vt_shown.specs.ShownElements.{resolves_to};
ghost use Rattle.vt_layout.specs.Drawings.{entries_in, mask_entries};
ghost use Rattle.draw_picture.specs.Listings as listings;
ghost use Rattle.draw_picture.specs.Listings.{Lists, listed, listed_for};
ghost use Rattle.draw_picture.specs.NearPlaces.{IsNear, IsNearSpot};

use crate::document::{GAP, MOST_INCLUSIONS, key_places, soft_keys, width_of};
use crate::frame::{Framing, frame_of, height_in, width_in};
use crate::walk::{if_visible, item};
use check_needs::Sizes;
use std::alloc::{AllocError, Global};
use vt_objects::{Child, InputList, Object, ObjectId, Store};
use vt_shown::{is_element, resolve};

/// The most elements of a list.
const MOST: usize = 2000;

/// A place on a picture, in pixels from the upper left corner of the mask.
#[derive(Clone, Copy, PartialEq, Eq)]
pub struct Position {
    /// The column.
    pub x: i32,
    /// The row.
    pub y: i32,
}

/// A part of a picture, in pixels: from `left` to before `right`, and from `top` to before `bottom`. It is empty if it ends before it
/// begins.
#[derive(Clone, Copy, PartialEq, Eq)]
pub struct Bounds {
    /// The first column.
    pub left: i32,
    /// The first row.
    pub top: i32,
    /// The column after the last one.
    pub right: i32,
    /// The row after the last one.
    pub bottom: i32,
}

/// An element of a picture.
#[derive(Clone, Copy, PartialEq, Eq)]
pub struct ListedElement {
    /// The ID of the object. For a pointer, it is the ID of the object to which the pointer leads.
    pub id: ObjectId,
    /// The number of the object's kind (ISO 11783-6).
    pub kind: u8,
    /// The number of elements around the element.
    pub depth: u8,
    /// The index in the list of the element around it. `None` for an element directly in the mask, and for a soft key.
    pub around: Option<u16>,
    /// The upper left corner.
    pub at: Position,
    /// The width in pixels. 0 if the object's record has no size.
    pub width: u32,
    /// The height in pixels. 0 if the object's record has no size.
    pub height: u32,
    /// The part of the picture outside of which nothing of the element is shown.
    pub bounds: Bounds,
}

/// What is around elements: the element with its index, or the mask, its corner, and the bounds of what is shown in it.
#[derive(Clone, Copy, PartialEq, Eq)]
pub(crate) struct Around {
    pub(crate) index: Option<u16>,
    pub(crate) depth: u8,
    pub(crate) at: Position,
    pub(crate) bounds: Bounds,
}

impl Around {
    /// The spot of an entry.
    fn spot_of(self, entry: &Child) -> Around
        requires { IsNear 1 self }
        ensures is { result ≡ listings.spot_of self entry.now }
        ensures near { (levels : ℕ) → IsNear (levels + 1) self → IsNearSpot levels result }
    {
        Around {
            index: self.index,
            depth: self.depth,
            at: Position {
                x: sum(self.at.x, entry.x),
                y: sum(self.at.y, entry.y),
            },
            bounds: self.bounds,
        }
    }

    /// What is around the elements within the element at this spot.
    fn inside_of(self, index: u16, bounds: Bounds) -> Around
        requires { self.depth < 255 }
        ensures is { result ≡ listings.inside_of index self bounds }
        ensures near { (levels : ℕ) → IsNearSpot levels self → IsNear levels result }
    {
        Around {
            index: Some(index),
            depth: self.depth + 1,
            at: self.at,
            bounds,
        }
    }
}

fn sum(a: i32, b: i16) -> i32
    requires { nat_abs a + 32768 ≤ 2 ^ 24 }
    ensures is { result ≡ a +ℤ b }
    ensures near { nat_abs result ≤ nat_abs a + 32768 }
{
    a + i32::from(b)
}

/// The end of a span, at most the greatest number of 32 bits.
fn end_of(from: i32, count: u32) -> i32
    ensures { result ≡ listings.end_of from count }
{
    i32::try_from(i64::from(from) + i64::from(count)).unwrap_or(i32::MAX)
}

/// What is shown of an element with a frame.
fn bounds_of(frame: Framing, at: Position, around: Bounds) -> Bounds
    ensures { result ≡ listings.bounds_of frame at around }
{
    match frame {
        Framing::Clipped { width, height } => within(around, at, width, height),
        Framing::Whole | Framing::Fine(_) => around,
    }
}

/// The part of an area that lies within others.
fn within(around: Bounds, at: Position, width: u32, height: u32) -> Bounds
    ensures { result ≡ listings.within around at width height }
{
    Bounds {
        left: greater(at.x, around.left),
        top: greater(at.y, around.top),
        right: less(end_of(at.x, width), around.right),
        bottom: less(end_of(at.y, height), around.bottom),
    }
}

fn greater(a: i32, b: i32) -> i32
    ensures { result ≡ int_max a b }
{
    if b < a { a } else { b }
}

fn less(a: i32, b: i32) -> i32
    ensures { result ≡ int_min a b }
{
    if b < a { b } else { a }
}

/// The element of an object at a spot.
fn element_at(sizes: Sizes, id: ObjectId, object: &Object<Vec<u8>>, spot: Around) -> ListedElement
    ensures { result ≡ listings.element_at sizes id (seen object.now) spot }
{
    let frame = frame_of(sizes, object);
    ListedElement {
        id,
        kind: object.kind().number(),
        depth: spot.depth,
        around: spot.index,
        at: spot.at,
        width: width_in(frame),
        height: height_in(frame),
        bounds: bounds_of(frame, spot.at, spot.bounds),
    }
}

/// Lists the elements of a picture in the order in which they are drawn: those of the mask, and then its soft keys with what is in them, in
/// columns to the right of the mask. A list has at most 2,000 elements, at most 32 within each other (ISO 11783-6; docs/PROFILE.md, "The
/// list of elements").
///
/// # Errors
/// `AllocError` when an allocation is refused.
pub fn list_elements<S: Store>(
    alloc: Global,
    store: &S,
    sizes: Sizes,
    mask: ObjectId,
) -> Result<Vec<ListedElement>, AllocError>
    ensures { IfOk result (λ list. list.items ≡ listings.elements_of sizes (S.contents store.now) mask) }
{
    let keys = soft_keys(store, mask);
    let places = key_places(alloc, sizes, keys)?;
    let mut list = Vec::new(alloc);
    list_mask(store, sizes, mask, &mut list)?;
    let beside = around_keys(sizes, keys.len());
    list_entries(
        store,
        sizes,
        MOST_INCLUSIONS,
        places.as_slice(),
        beside,
        &mut list,
    )?;
    Ok(list)
}

/// Lists the elements within a mask. Without a mask there are none.
fn list_mask<S: Store>(
    store: &S,
    sizes: Sizes,
    mask: ObjectId,
    list: &mut Vec<ListedElement>,
) -> Result<(), AllocError>
    requires { length list.old.items ≤ 2000 }
    ensures listed { OnOk result (Lists (listed 32 sizes (S.contents store.now) (mask_entries (S.contents store.now) mask) (listings.around_mask sizes)) list.old.items list.new.items) }
    ensures short { OnOk result (length list.new.items ≤ 2000) }
{
    match store.get(mask) {
        Some(object) => list_within(
            store,
            sizes,
            MOST_INCLUSIONS,
            object,
            around_mask(sizes),
            list,
        ),
        None => Ok(()),
    }
}

/// What is around the elements of a mask.
fn around_mask(sizes: Sizes) -> Around
    ensures is { result ≡ listings.around_mask sizes }
    ensures near { IsNear 32 result }
{
    from_corner(0, i32::from(sizes.mask.width), sizes.mask.height)
}

/// What is around soft keys.
fn around_keys(sizes: Sizes, keys: usize) -> Around
    requires { keys ≤ 65535 }
    ensures is { result ≡ listings.around_keys sizes keys }
    ensures near { IsNear 32 result }
{
    let left = i32::from(sizes.mask.width) + GAP as i32;
    from_corner(left, end_of(0, width_of(sizes, keys)), sizes.mask.height)
}

fn from_corner(left: i32, right: i32, height: u16) -> Around
    requires { nat_abs left ≤ 65543 }
    ensures is { result ≡ listings.from_corner left right height }
    ensures near { IsNear 32 result }
{
    Around {
        index: None,
        depth: 0,
        at: Position { x: left, y: 0 },
        bounds: Bounds {
            left,
            top: 0,
            right,
            bottom: i32::from(height),
        },
    }
}

/// Lists the elements of entries, at most `levels` within each other.
#[cycle(listing)]
fn list_entries<S: Store>(
    store: &S,
    sizes: Sizes,
    levels: u8,
    entries: &[Child],
    around: Around,
    list: &mut Vec<ListedElement>,
) -> Result<(), AllocError>
    requires near { IsNear levels around }
    requires short { length list.old.items ≤ 2000 }
    ensures listed { OnOk result (Lists (listed levels sizes (S.contents store.now) entries.now around) list.old.items list.new.items) }
    ensures short { OnOk result (length list.new.items ≤ 2000) }
{
    if levels == 0 {
        return Ok(());
    }
    for entry in entries {
        list_entry(
            store,
            sizes,
            levels - 1,
            entry.id,
            around.spot_of(entry),
            list,
        )?;
    }
    Ok(())
}

/// Lists the element to which an entry leads, at its spot.
#[cycle(listing)]
fn list_entry<S: Store>(
    store: &S,
    sizes: Sizes,
    levels: u8,
    id: ObjectId,
    spot: Around,
    list: &mut Vec<ListedElement>,
) -> Result<(), AllocError>
    requires near { IsNearSpot levels spot }
    requires short { length list.old.items ≤ 2000 }
    ensures listed { OnOk result (Lists (listed_for (listed levels sizes (S.contents store.now)) sizes (S.contents store.now) (resolves_to (S.contents store.now) id) spot) list.old.items list.new.items) }
    ensures short { OnOk result (length list.new.items ≤ 2000) }
{
    let index = list.len();
    if index >= MOST {
        return Ok(());
    }
    match resolve(store, id) {
        Some(found) if is_element(found.1) => {
            let element = element_at(sizes, found.0, found.1, spot);
            let inside = spot.inside_of(index as u16, element.bounds);
            list.push(element)?;
            list_within(store, sizes, levels, found.1, inside, list)
        }
        _ => Ok(()),
    }
}

/// Lists the elements within an element.
#[cycle(listing)]
fn list_within<S: Store>(
    store: &S,
    sizes: Sizes,
    levels: u8,
    object: &Object<Vec<u8>>,
    around: Around,
    list: &mut Vec<ListedElement>,
) -> Result<(), AllocError>
    requires near { IsNear levels around }
    requires short { length list.old.items ≤ 2000 }
    ensures listed { OnOk result (Lists (listed levels sizes (S.contents store.now) (entries_in (S.contents store.now) (Some (seen object.now))) around) list.old.items list.new.items) }
    ensures short { OnOk result (length list.new.items ≤ 2000) }
{
    match object {
        Object::WorkingSet(o) => {
            list_entries(store, sizes, levels, o.children.as_slice(), around, list)
        }
        Object::DataMask(o) => {
            list_entries(store, sizes, levels, o.children.as_slice(), around, list)
        }
        Object::AlarmMask(o) => {
            list_entries(store, sizes, levels, o.children.as_slice(), around, list)
        }
        Object::Container(o) => { list_entries(store, sizes, levels, if_visible(o), around, list) }
        Object::Key(o) => {
            list_entries(store, sizes, levels, o.children.as_slice(), around, list)
        }
        Object::Button(o) => {
            list_entries(store, sizes, levels, o.children.as_slice(), around, list)
        }
        Object::InputList(o) => list_item(store, sizes, levels, o, around, list),
        _ => Ok(()),
    }
}

/// Lists the current item of an input list, at the corner of the list.
#[cycle(listing)]
fn list_item<S: Store>(
    store: &S,
    sizes: Sizes,
    levels: u8,
    input: &InputList,
    around: Around,
    list: &mut Vec<ListedElement>,
) -> Result<(), AllocError>
    requires near { IsNear levels around }
    requires short { length list.old.items ≤ 2000 }
    ensures listed { OnOk result (Lists (listed levels sizes (S.contents store.now) (entries_in (S.contents store.now) (Some (objects.InputList input.now))) around) list.old.items list.new.items) }
    ensures short { OnOk result (length list.new.items ≤ 2000) }
{
    match item(store, input) {
        Some(id) => {
            let entry = Child { id, x: 0, y: 0 };
            list_entries(store, sizes, levels, &[entry], around, list)
        }
        None => Ok(()),
    }
}

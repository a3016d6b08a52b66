//! The picture of one object by itself.

ghost use Rattle.std.specs.Prelude.{◌≡◌, ◌≤◌, Some, IfOk};
ghost use Rattle.vt_kinds.specs.Records.{seen};
ghost use Rattle.draw_picture.specs.Parts as parts;

use crate::document::{
    GAP, MOST_ELEMENTS, background_of, begin_picture, end_picture, key_places, walk_all, width_of,
};
use crate::elements::{add_pictures, draw_tags};
use crate::frame::{Framing, frame_of, height_in, width_in};
use crate::walk::Walk;
use check_needs::{Area, Sizes};
use std::alloc::{AllocError, Global};
use vt_objects::{Child, Object, ObjectId, Store};
use vt_shown::resolve;

/// Draws one object by itself as SVG, at the upper left corner of a picture that has its size: for the items of a list, for the label of a
/// key, and for the designator of a Working Set. A pointer is followed. For a Working Set or a mask, the elements within it are drawn on
/// its background, and for a Soft Key Mask its keys. If the ID leads to no object, the text is empty (ISO 11783-6; docs/PROFILE.md, "The
/// picture of one object").
///
/// # Errors
/// `AllocError` when an allocation is refused.
pub fn draw_part<S: Store>(
    alloc: Global,
    store: &S,
    sizes: Sizes,
    id: ObjectId,
) -> Result<Vec<u8>, AllocError>
    ensures { IfOk result (λ text. parts.IsPart sizes (S.contents store.now) id text.items) }
{
    match resolve(store, id) {
        Some(found) => draw_object(alloc, store, sizes, found.0, found.1),
        None => Ok(Vec::new(alloc)),
    }
}

/// Draws an object by itself.
fn draw_object<S: Store>(
    alloc: Global,
    store: &S,
    sizes: Sizes,
    id: ObjectId,
    object: &Object<Vec<u8>>,
) -> Result<Vec<u8>, AllocError>
    ensures { IfOk result (λ text. parts.IsPartOf sizes (S.contents store.now) id (Some (seen object.now)) text.items) }
{
    let walk = walk_part(alloc, store, sizes, id, object)?;
    let mut text = Vec::new(alloc);
    let size = part_size(sizes, object);
    begin_picture(&mut text, size, size.0, background_of(object))?;
    draw_tags(&mut text, store, sizes, walk.tags.as_slice())?;
    let mut pictures = Vec::new(alloc);
    add_pictures(&mut pictures, store, walk.tags.as_slice())?;
    end_picture(alloc, &mut text, store, pictures.as_slice())?;
    Ok(text)
}

/// Walks through the elements that are drawn of an object.
fn walk_part<S: Store>(
    alloc: Global,
    store: &S,
    sizes: Sizes,
    id: ObjectId,
    object: &Object<Vec<u8>>,
) -> Result<Walk, AllocError>
    ensures { IfOk result (λ walk. walk.tags.items ≡ parts.part_tags sizes (S.contents store.now) id (seen object.now)) }
{
    match object {
        Object::WorkingSet(o) => walk_all(alloc, store, o.children.as_slice(), MOST_ELEMENTS),
        Object::DataMask(o) => walk_all(alloc, store, o.children.as_slice(), MOST_ELEMENTS),
        Object::AlarmMask(o) => walk_all(alloc, store, o.children.as_slice(), MOST_ELEMENTS),
        Object::SoftKeyMask(o) => {
            let places = key_places(alloc, sizes, o.keys.as_slice())?;
            walk_all(alloc, store, places.as_slice(), MOST_ELEMENTS)
        }
        _ => walk_all(alloc, store, &[Child { id, x: 0, y: 0 }], MOST_ELEMENTS),
    }
}

/// The width and the height of an object by itself.
fn part_size(sizes: Sizes, object: &Object<Vec<u8>>) -> (u32, u32)
    ensures { result ≡ parts.part_size sizes (seen object.now) }
{
    match object {
        Object::WorkingSet(_) => size_of_area(sizes.key),
        Object::DataMask(_) | Object::AlarmMask(_) => size_of_area(sizes.mask),
        Object::SoftKeyMask(o) => (
            width_of_keys(sizes, o.keys.as_slice().len()),
            u32::from(sizes.mask.height),
        ),
        _ => size_in(frame_of(sizes, object)),
    }
}

/// The width and the height of a frame.
fn size_in(frame: Framing) -> (u32, u32)
    ensures { result ≡ parts.size_in frame }
{
    (width_in(frame), height_in(frame))
}

fn size_of_area(area: Area) -> (u32, u32)
    ensures { result ≡ parts.size_of_area area }
{
    (u32::from(area.width), u32::from(area.height))
}

/// The width of the columns that keys take beside a mask, with the pixels between them.
fn width_of_keys(sizes: Sizes, keys: usize) -> u32
    requires { keys ≤ 65535 }
    ensures { result ≡ parts.width_of_keys sizes keys }
{
    width_of(sizes, keys).saturating_sub(u32::from(sizes.mask.width) + GAP as u32)
}

//! The elements of a picture as text, and the Picture objects to which they refer.

ghost use Rattle.std.specs.Prelude.{◌≡◌, ◌++◌, OnOk};
ghost use Rattle.std.specs.FinMap as finite;
ghost use Rattle.vt_kinds.specs.Records.{seen};
ghost use Rattle.draw_svg.specs.declared.element.Element.TheVariants.{Svg};
ghost use Rattle.draw_svg.specs.Elements.{opened};
ghost use Rattle.draw_picture.specs.Pictures.{element_opening, picture_of, element_attributes, shapes_if, tag_text, with_id, with_picture, with_pictures, with_tag, with_tags, is_in};

use crate::frame::{Framing, frame_of};
use crate::walk::Tag;
use check_needs::Sizes;
use draw_shapes::{draw_shapes, used_picture};
use draw_svg::{Attribute, Element, Flag, close, open};
use std::alloc::AllocError;
use vt_objects::{Child, Object, ObjectId, Store};

/// The most bytes of a text after which the shapes of another element are appended.
const MOST_BYTES: usize = 8_000_000;

/// Appends elements, each with its own shapes as long as there is room for them: after 8,000,000 bytes an element has its tag alone.
pub(crate) fn draw_tags<S: Store>(
    text: &mut Vec<u8>,
    store: &S,
    sizes: Sizes,
    tags: &[Tag],
) -> Result<(), AllocError>
    ensures { OnOk result (text.new.items ≡ with_tags sizes (S.contents store.now) text.old.items tags.now) }
{
    for tag in tags {
        draw_tag(text, store, sizes, tag)?;
    }
    Ok(())
}

/// Appends the beginning or the end of an element.
fn draw_tag<S: Store>(
    text: &mut Vec<u8>,
    store: &S,
    sizes: Sizes,
    tag: &Tag,
) -> Result<(), AllocError>
    ensures { OnOk result (text.new.items ≡ with_tag sizes (S.contents store.now) text.old.items tag.now) }
{
    let has_room = text.len() <= MOST_BYTES;
    match tag {
        Tag::Open(entry) => open_element(text, store, sizes, entry, has_room),
        Tag::Close => close(text, Element::Svg),
    }
}

/// Appends the beginning of an element: its tag, and its own shapes if there is room for them.
fn open_element<S: Store>(
    text: &mut Vec<u8>,
    store: &S,
    sizes: Sizes,
    entry: &Child,
    has_room: bool,
) -> Result<(), AllocError>
    ensures { OnOk result (text.new.items ≡ text.old.items ++ element_opening has_room sizes (S.contents store.now) entry.now (finite.get (S.contents store.now) entry.now.id)) }
{
    let Some(object) = store.get(entry.id) else {
        return open_tag(text, entry, Framing::Whole);
    };
    open_tag(text, entry, frame_of(sizes, object))?;
    draw_shapes_if(text, store, sizes, entry.id, object, has_room)
}

fn draw_shapes_if<S: Store>(
    text: &mut Vec<u8>,
    store: &S,
    sizes: Sizes,
    id: ObjectId,
    object: &Object<Vec<u8>>,
    has_room: bool,
) -> Result<(), AllocError>
    ensures { OnOk result (text.new.items ≡ text.old.items ++ shapes_if has_room sizes (S.contents store.now) id (seen object.now)) }
{
    if !has_room {
        return Ok(());
    }
    draw_shapes(text, store, sizes, id, object)
}

/// Appends the tag of an element.
fn open_tag(text: &mut Vec<u8>, entry: &Child, frame: Framing) -> Result<(), AllocError>
    ensures { OnOk result (text.new.items ≡ text.old.items ++ opened Svg (element_attributes entry.now frame)) }
{
    let id = Attribute::ObjectId(entry.id.raw());
    let x = Attribute::X(i32::from(entry.x));
    let y = Attribute::Y(i32::from(entry.y));
    match frame {
        Framing::Whole => open(text, Element::Svg, &[id, x, y]),
        Framing::Clipped { width, height } => open(
            text,
            Element::Svg,
            &[id, x, y, Attribute::Width(width), Attribute::Height(height)],
        ),
        Framing::Fine(area) => {
            let width = u32::from(area.width).max(1);
            let height = u32::from(area.height).max(1);
            open(
                text,
                Element::Svg,
                &[
                    id,
                    x,
                    y,
                    Attribute::Width(width),
                    Attribute::Height(height),
                    Attribute::Coordinates(10 * width, 10 * height),
                    Attribute::Flag(Flag::Overflow),
                ],
            )
        }
    }
}

/// Adds the Picture objects to which elements refer to those of `ids`, each once.
pub(crate) fn add_pictures<S: Store>(
    ids: &mut Vec<ObjectId>,
    store: &S,
    tags: &[Tag],
) -> Result<(), AllocError>
    ensures { OnOk result (ids.new.items ≡ with_pictures (S.contents store.now) ids.old.items tags.now) }
{
    for tag in tags {
        add_picture(ids, store, tag)?;
    }
    Ok(())
}

fn add_picture<S: Store>(ids: &mut Vec<ObjectId>, store: &S, tag: &Tag) -> Result<(), AllocError>
    ensures { OnOk result (ids.new.items ≡ with_picture (S.contents store.now) ids.old.items tag.now) }
{
    match tag {
        Tag::Open(entry) => add_id(ids, picture_of(store, entry.id)),
        Tag::Close => Ok(()),
    }
}

/// The Picture to which an element refers.
fn picture_of<S: Store>(store: &S, id: ObjectId) -> Option<ObjectId>
    ensures { result ≡ picture_of (S.contents store.now) id (finite.get (S.contents store.now) id) }
{
    match store.get(id) {
        Some(object) => used_picture(store, id, object),
        None => None,
    }
}

/// Adds an ID to others, unless it is one of them.
fn add_id(ids: &mut Vec<ObjectId>, id: Option<ObjectId>) -> Result<(), AllocError>
    ensures { OnOk result (ids.new.items ≡ with_id ids.old.items id) }
{
    if let Some(id) = id
        && !is_in(id, ids.as_slice())
    {
        ids.push(id)?;
    }
    Ok(())
}

/// Whether an ID is one of others.
fn is_in(id: ObjectId, ids: &[ObjectId]) -> bool
    ensures { result ≡ is_in id ids.now }
{
    for other in ids {
        if id == *other {
            return true;
        }
    }
    false
}

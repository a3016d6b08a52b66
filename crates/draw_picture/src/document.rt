//! The picture of a mask with its soft keys.

ghost use Rattle.std.specs.Prelude.{◌≡◌, ◌≤◌, ◌+◌, ◌++◌, ◌-◌, length, IfOk, OnOk, Some};
ghost use Rattle.std.specs.FinMap as finite;
ghost use Rattle.vt_kinds.specs.Records.{seen};
ghost use Rattle.vt_chains.specs.Limits.{terminal};
ghost use Rattle.vt_shown.specs.ShownElements.{soft_keys};
ghost use Rattle.draw_svg.specs.declared.element.Element.TheVariants.{Rect, Svg};
ghost use Rattle.draw_svg.specs.Elements.{emptied, opened};
ghost use Rattle.vt_layout.specs.Drawings.{mask_entries};
ghost use Rattle.draw_picture.specs.Documents as documents;
ghost use Rattle.draw_picture.specs.Marks.{count, cut, marks};
ghost use Rattle.draw_picture.specs.Tags.{tags_of, Walks};

use crate::elements::{add_pictures, draw_tags};
use crate::walk::{Tag, Walk, walk_entries, walk_within};
use check_needs::Sizes;
use draw_svg::{Attribute, Element, Flag, Paint, close, draw_images, empty, open};
use std::alloc::{AllocError, Global};
use vt_chains::TERMINAL_LIMITS;
use vt_objects::{Child, Object, ObjectId, Store};
use vt_shown::soft_key_mask;

/// The most inclusions in a chain.
pub(crate) const MOST_INCLUSIONS: u8 = TERMINAL_LIMITS.inclusions;

/// The most elements of a picture.
pub(crate) const MOST_ELEMENTS: u16 = 2000;

/// The pixels between a mask and its keys, and between keys.
pub(crate) const GAP: u64 = 8;

/// The farthest position of an entry.
const FARTHEST: u64 = 32_767;

/// Draws a mask with its soft keys as SVG: its elements on its background, and the keys in columns to its right. A picture has at most
/// 2,000 elements in all, at most 32 within each other, and takes at most some 12.6 MB. If no object has that ID, the picture shows
/// nothing. If the object is no mask, the elements within it are drawn, and those of a Working Set on its background (ISO 11783-6;
/// docs/PROFILE.md, "Pictures").
///
/// # Errors
/// `AllocError` when an allocation is refused.
pub fn draw<S: Store>(
    alloc: Global,
    store: &S,
    sizes: Sizes,
    mask: ObjectId,
) -> Result<Vec<u8>, AllocError>
    ensures { IfOk result (λ text. documents.IsPicture sizes (S.contents store.now) mask text.items) }
{
    let keys = soft_keys(store, mask);
    let places = key_places(alloc, sizes, keys)?;
    let in_mask = walk_mask(alloc, store, mask)?;
    let in_keys = walk_all(alloc, store, places.as_slice(), in_mask.left)?;
    let mut text = Vec::new(alloc);
    let size = picture_size(store, sizes, mask);
    let wide = u32::from(sizes.mask.width);
    begin_picture(&mut text, size, wide, background(store, mask))?;
    draw_mask(&mut text, store, sizes, in_mask.tags.as_slice())?;
    draw_keys(&mut text, store, sizes, in_keys.tags.as_slice())?;
    let mut pictures = Vec::new(alloc);
    add_pictures(&mut pictures, store, in_mask.tags.as_slice())?;
    add_pictures(&mut pictures, store, in_keys.tags.as_slice())?;
    end_picture(alloc, &mut text, store, pictures.as_slice())?;
    Ok(text)
}

/// Appends the Picture objects to which the elements of a picture refer, and the end of the picture.
pub(crate) fn end_picture<S: Store>(
    alloc: Global,
    text: &mut Vec<u8>,
    store: &S,
    pictures: &[ObjectId],
) -> Result<(), AllocError>
    ensures { OnOk result (documents.IsEnded (S.contents store.now) pictures.now text.old.items text.new.items) }
{
    draw_images(alloc, text, store, pictures)?;
    close(text, Element::Svg)
}

/// Walks through the elements within a mask.
fn walk_mask<S: Store>(alloc: Global, store: &S, mask: ObjectId) -> Result<Walk, AllocError>
    ensures tags { IfOk result (λ walk. walk.tags.items ≡ documents.mask_tags (S.contents store.now) mask) }
    ensures left { IfOk result (λ walk. walk.left ≡ documents.most_marks - count (documents.mask_marks (S.contents store.now) mask)) }
{
    let mut walk = Walk {
        tags: Vec::new(alloc),
        left: MOST_ELEMENTS,
    };
    walk_inside(store, mask, &mut walk)?;
    Ok(walk)
}

/// Walks through the elements within a mask. Without a mask there are none.
fn walk_inside<S: Store>(store: &S, mask: ObjectId, walk: &mut Walk) -> Result<(), AllocError>
    ensures { OnOk result (Walks (marks terminal.inclusions (S.contents store.now) (mask_entries (S.contents store.now) mask)) walk.old walk.new) }
{
    match store.get(mask) {
        Some(object) => walk_within(store, MOST_INCLUSIONS, object, walk),
        None => Ok(()),
    }
}

/// Walks through the elements of entries, of which some still fit.
pub(crate) fn walk_all<S: Store>(
    alloc: Global,
    store: &S,
    entries: &[Child],
    left: u16,
) -> Result<Walk, AllocError>
    ensures { IfOk result (λ walk. walk.tags.items ≡ tags_of (cut left (marks terminal.inclusions (S.contents store.now) entries.now))) }
{
    let mut walk = Walk {
        tags: Vec::new(alloc),
        left,
    };
    walk_entries(store, MOST_INCLUSIONS, entries, &mut walk)?;
    Ok(walk)
}

/// The soft keys of a mask. Empty without a soft key mask.
pub(crate) fn soft_keys<S: Store>(store: &S, mask: ObjectId) -> &[ObjectId]
    ensures keys { result.now ≡ soft_keys (S.contents store.now) mask }
    ensures most { length result.now ≤ 255 }
{
    let Some(Object::SoftKeyMask(o)) = store.get(soft_key_mask(store, mask)) else {
        return &[];
    };
    o.keys.as_slice()
}

/// The number of keys in a column.
fn keys_in_column(sizes: Sizes) -> u64
    ensures { result ≡ documents.keys_in_column sizes }
{
    ((u64::from(sizes.mask.height) + GAP) / (u64::from(sizes.key.height) + GAP)).max(1)
}

/// A distance, or the farthest position of an entry if that is less.
fn reach(distance: u64) -> i16
    ensures { result ≡ documents.reach distance }
{
    distance.min(FARTHEST) as i16
}

/// The place of a key by its index: down a column, and then down the next one to the right.
fn key_place(sizes: Sizes, index: usize, id: ObjectId) -> Child
    requires { index ≤ 65536 }
    ensures { result ≡ documents.key_place sizes index id }
{
    let index = index as u64;
    let column = keys_in_column(sizes);
    Child {
        id,
        x: reach(index / column * (u64::from(sizes.key.width) + GAP)),
        y: reach(index % column * (u64::from(sizes.key.height) + GAP)),
    }
}

/// The places of keys.
pub(crate) fn key_places(
    alloc: Global,
    sizes: Sizes,
    keys: &[ObjectId],
) -> Result<Vec<Child>, AllocError>
    requires { length keys.now ≤ 65536 }
    ensures { IfOk result (λ places. places.items ≡ documents.key_places sizes 0 keys.now) }
{
    let mut places = Vec::with_capacity(alloc, keys.len())?;
    for (index, key) in keys.iter().enumerate() {
        places.push(key_place(sizes, index, *key))?;
    }
    Ok(places)
}

/// The width of a picture with some keys, at most the greatest number of 32 bits.
pub(crate) fn width_of(sizes: Sizes, keys: usize) -> u32
    requires { keys ≤ 65535 }
    ensures { result ≡ documents.width_of sizes keys }
{
    let column = keys_in_column(sizes);
    let columns = (keys as u64 + column - 1) / column;
    let width = u64::from(sizes.mask.width) + columns * (u64::from(sizes.key.width) + GAP);
    width.min(u64::from(u32::MAX)) as u32
}

/// The size of the picture of a mask with its soft keys, in pixels: its width, and its height.
pub fn picture_size<S: Store>(store: &S, sizes: Sizes, mask: ObjectId) -> (u32, u32)
    ensures { result ≡ documents.picture_size sizes (S.contents store.now) mask }
{
    let keys = soft_keys(store, mask).len();
    (width_of(sizes, keys), u32::from(sizes.mask.height))
}

/// The background of a mask. Nothing without a mask.
fn background<S: Store>(store: &S, mask: ObjectId) -> Paint
    ensures { result ≡ documents.background (finite.get (S.contents store.now) mask) }
{
    match store.get(mask) {
        Some(object) => background_of(object),
        None => Paint::None,
    }
}

/// The background of an object: that of a Working Set or a mask.
pub(crate) fn background_of(object: &Object<Vec<u8>>) -> Paint
    ensures { result ≡ documents.background (Some (seen object.now)) }
{
    match object {
        Object::WorkingSet(o) => Paint::Colour(o.colour),
        Object::DataMask(o) => Paint::Colour(o.colour),
        Object::AlarmMask(o) => Paint::Colour(o.colour),
        _ => Paint::None,
    }
}

/// Appends the beginning of a picture of a size: its tag, and a background as high as the picture, at its left edge.
pub(crate) fn begin_picture(
    text: &mut Vec<u8>,
    size: (u32, u32),
    wide: u32,
    background: Paint,
) -> Result<(), AllocError>
    ensures { OnOk result (text.new.items ≡ text.old.items ++ documents.beginning size wide background) }
{
    let (width, height) = size;
    open(
        text,
        Element::Svg,
        &[
            Attribute::Flag(Flag::NameSpace),
            Attribute::Width(width),
            Attribute::Height(height),
            Attribute::Coordinates(width, height),
            Attribute::Flag(Flag::Font),
        ],
    )?;
    empty(
        text,
        Element::Rect,
        &[
            Attribute::Width(wide),
            Attribute::Height(height),
            Attribute::Fill(background),
        ],
    )
}

/// Draws the elements within a mask, in its area.
fn draw_mask<S: Store>(
    text: &mut Vec<u8>,
    store: &S,
    sizes: Sizes,
    tags: &[Tag],
) -> Result<(), AllocError>
    ensures { OnOk result (text.new.items ≡ documents.with_area sizes (S.contents store.now) (documents.mask_area sizes) tags.now text.old.items) }
{
    open(
        text,
        Element::Svg,
        &[
            Attribute::Width(u32::from(sizes.mask.width)),
            Attribute::Height(u32::from(sizes.mask.height)),
        ],
    )?;
    draw_tags(text, store, sizes, tags)?;
    close(text, Element::Svg)
}

/// Draws keys beside a mask.
fn draw_keys<S: Store>(
    text: &mut Vec<u8>,
    store: &S,
    sizes: Sizes,
    tags: &[Tag],
) -> Result<(), AllocError>
    ensures { OnOk result (text.new.items ≡ documents.with_area sizes (S.contents store.now) (documents.keys_area sizes) tags.now text.old.items) }
{
    let left = Attribute::Left(u32::from(sizes.mask.width) + GAP as u32);
    open(text, Element::Svg, &[left])?;
    draw_tags(text, store, sizes, tags)?;
    close(text, Element::Svg)
}

//! Picture objects as symbols and patterns.

ghost use Rattle.std.specs.Prelude.{◌≡◌, ◌*◌, ◌++◌, OnOk};
ghost use Rattle.std.specs.FinMap as finite;
ghost use Rattle.vt_kinds.specs.Records.{seen_picture};
ghost use Rattle.draw_svg.specs.Images.{AppendsImage, AppendsImages, picture_in, tile, with_symbol};

use crate::strokes::draw_pixels;
use crate::{Attribute, Element, Flag, Paint, Run, close, empty, open, runs};
use std::alloc::{AllocError, Global};
use vt_objects::{Object, ObjectId, Picture, Store};

/// Appends Picture objects as symbols and as patterns, in the order of `ids`. Nothing is appended for an object that is no
/// Picture, and no pixels are appended after 12,000,000 bytes of text.
///
/// # Errors
/// `AllocError` when an allocation is refused; some of the text may then be appended.
pub fn draw_images<S: Store>(
    alloc: Global,
    text: &mut Vec<u8>,
    store: &S,
    ids: &[ObjectId],
) -> Result<(), AllocError>
    ensures { OnOk result (AppendsImages (S.contents store.now) ids.now text.old.items text.new.items) }
{
    for id in ids {
        draw_image(alloc, text, store, *id)?;
    }
    Ok(())
}

/// Appends a Picture object. Nothing for another object.
fn draw_image<S: Store>(
    alloc: Global,
    text: &mut Vec<u8>,
    store: &S,
    id: ObjectId,
) -> Result<(), AllocError>
    ensures { OnOk result (AppendsImage id (picture_in (finite.get (S.contents store.now) id)) text.old.items text.new.items) }
{
    let Some(Object::Picture(picture)) = store.get(id) else {
        return Ok(());
    };
    let runs = runs(alloc, picture)?;
    draw_symbol(text, id, picture, runs.as_slice())?;
    draw_tile(text, id, picture)
}

/// Appends a picture of the pixels of runs, to be shown elsewhere.
fn draw_symbol(
    text: &mut Vec<u8>,
    id: ObjectId,
    picture: &Picture<Vec<u8>>,
    runs: &[Run],
) -> Result<(), AllocError>
    ensures { OnOk result (text.new.items ≡ with_symbol id (seen_picture picture.now) runs.now text.old.items) }
{
    open(
        text,
        Element::Symbol,
        &[
            Attribute::PictureId(id.raw()),
            Attribute::Coordinates(
                doubled(picture.actual_width),
                doubled(picture.actual_height),
            ),
            Attribute::Flag(Flag::StretchedPicture),
            Attribute::Flag(Flag::Crisp),
            Attribute::Fill(Paint::None),
            Attribute::StrokeWidth(2),
        ],
    )?;
    draw_pixels(text, picture, runs)?;
    close(text, Element::Symbol)
}

/// Appends a picture as a pattern that fills shapes, whose lengths are in tenths of a pixel.
fn draw_tile(text: &mut Vec<u8>, id: ObjectId, picture: &Picture<Vec<u8>>) -> Result<(), AllocError>
    ensures { OnOk result (text.new.items ≡ text.old.items ++ tile id (seen_picture picture.now)) }
{
    let width = Attribute::Width(tenths(picture.actual_width));
    let height = Attribute::Height(tenths(picture.actual_height));
    open(
        text,
        Element::Pattern,
        &[
            Attribute::PatternId(id.raw()),
            Attribute::Flag(Flag::PatternInPixels),
            width,
            height,
        ],
    )?;
    empty(
        text,
        Element::Use,
        &[Attribute::PictureShown(id.raw()), width, height],
    )?;
    close(text, Element::Pattern)
}

/// A length in units of a symbol: two for each pixel.
fn doubled(length: u16) -> u32
    ensures { result ≡ 2 * length }
{
    u32::from(length) * 2
}

/// A length in tenths of a pixel.
fn tenths(length: u16) -> u32
    ensures { result ≡ 10 * length }
{
    u32::from(length) * 10
}

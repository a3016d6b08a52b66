//! The bytes of Picture objects.

ghost use Rattle.std.specs.Prelude.{◌≡◌, ◌<◌, ◌≤◌, ◌++◌, length, IfSome, OnOk};
ghost use Rattle.vt_kinds.specs.Records.{seen, seen_picture};
ghost use Rattle.check_values.specs.Pictures as spec;

use crate::warning::ValueWarning;
use std::alloc::AllocError;
use vt_objects::{Object, ObjectId, Picture};

/// The weight of bit 2 of a picture's options: its bytes are pairs of a count and a byte.
const HAS_PAIRS: u8 = 4;

/// Appends a Picture whose bytes are not those of its pixels. A Picture of another format has no pixels.
pub(crate) fn put_pictures(
    id: ObjectId,
    object: &Object<Vec<u8>>,
    found: &mut Vec<ValueWarning>,
) -> Result<(), AllocError>
    ensures { OnOk result (found.new.items ≡ found.old.items ++ spec.picture_bytes id (seen object.now)) }
{
    let Object::Picture(picture) = object else {
        return Ok(());
    };
    match pixels_in_byte(picture.format) {
        None => Ok(()),
        Some(pixels) => put_bytes(id, picture, pixels, found),
    }
}

/// The number of pixels in a byte, by the number of the format. `None` for a format without pixels.
fn pixels_in_byte(format: u8) -> Option<u16>
    ensures value { result ≡ spec.pixels_in_byte format }
    ensures some { IfSome result (λ pixels. 0 < pixels) }
{
    match format {
        0 => Some(8),
        1 => Some(2),
        2 => Some(1),
        _ => None,
    }
}

/// Appends a Picture whose bytes are not those of its pixels, so many in a byte.
fn put_bytes(
    id: ObjectId,
    picture: &Picture<Vec<u8>>,
    pixels: u16,
    found: &mut Vec<ValueWarning>,
) -> Result<(), AllocError>
    requires { 0 < pixels }
    ensures { OnOk result (found.new.items ≡ found.old.items ++ spec.bytes_in id (seen_picture picture.now) pixels) }
{
    let bytes = picture.bytes.as_slice();
    let expected = bytes_of_pixels(picture, pixels);
    if picture.options / HAS_PAIRS % 2 == 0 {
        return put_unless_equal(id, bytes.len() as u64, expected, found);
    }
    if bytes.len() % 2 == 1 {
        let bytes = bytes.len() as u64;
        found.push(ValueWarning::HalfPair { id, bytes })?;
        return Ok(());
    }
    put_unless_equal(id, unpacked(bytes), expected, found)
}

/// The bytes of image data that the pixels of a picture take, so many in a byte. Each row begins with a new byte.
fn bytes_of_pixels(picture: &Picture<Vec<u8>>, pixels: u16) -> u64
    requires { 0 < pixels }
    ensures { result ≡ spec.bytes_of_pixels (seen_picture picture.now) pixels }
{
    u64::from(picture.actual_width.div_ceil(pixels)) * u64::from(picture.actual_height)
}

/// Appends a number of bytes that is not the expected one.
fn put_unless_equal(
    id: ObjectId,
    bytes: u64,
    expected: u64,
    found: &mut Vec<ValueWarning>,
) -> Result<(), AllocError>
    ensures { OnOk result (found.new.items ≡ found.old.items ++ spec.unless_equal id bytes expected) }
{
    if bytes != expected {
        found.push(ValueWarning::PictureBytes {
            id,
            bytes,
            expected,
        })?;
    }
    Ok(())
}

/// The bytes of image data that pairs of a count and a byte stand for.
fn unpacked(pairs: &[u8]) -> u64
    requires { length pairs.now ≤ 4294967295 }
    ensures { result ≡ spec.unpacked pairs.now }
{
    let mut sum = 0u64;
    let mut rest = pairs;
    while let [count, _, after @ ..] = rest {
        sum += u64::from(*count);
        rest = after;
    }
    sum
}

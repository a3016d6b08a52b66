//! Runs of a picture's rows.

ghost use Rattle.std.specs.Prelude.{◌≡◌, IfOk};
ghost use Rattle.vt_kinds.specs.Records.{seen_picture};
ghost use Rattle.draw_svg.specs.Rasters.{is_packed, IsRaster, AreFewRuns};

use crate::format::PixelFormat;
use crate::raster::Raster;
use std::alloc::{AllocError, Global};
use vt_kinds::Picture;

/// A byte that repeats within a row of a picture. Its pixels are those of the byte, `count` times, from the column
/// `start` times `PixelFormat::pixels_in_byte` on. Pixels past the width of the image, in the last byte of a row, are spare.
#[derive(Clone, Copy, PartialEq, Eq)]
pub struct Run {
    /// The row, from 0 at the top.
    pub row: u16,
    /// The index of its first byte in the row.
    pub start: u16,
    /// The number of bytes, at least 1.
    pub count: u16,
    /// The byte.
    pub byte: u8,
}

/// The runs of a picture, from the first row to the last and from the left to the right. Rows past the end of the image
/// data have no runs, and a row that it ends in has runs up to there. Empty if the number of the format is over 2.
///
/// There is at most one run for each byte of the picture, and one for each row that the image data fills. Transparency and the
/// scale of the picture are left to the caller.
///
/// # Errors
/// A refused allocation.
pub fn runs(alloc: Global, picture: &Picture<Vec<u8>>) -> Result<Vec<Run>, AllocError>
    ensures runs { IfOk result (λ runs. IsRaster (seen_picture picture.now) runs.items) }
    ensures few { IfOk result (λ runs. AreFewRuns (seen_picture picture.now) runs.items) }
{
    let Some(format) = PixelFormat::from_number(picture.format) else {
        return Ok(Vec::new(alloc));
    };
    let size = format.bytes_in_row(picture.actual_width);
    let mut raster = Raster::new(alloc, size, picture.actual_height);
    let bytes = picture.bytes.as_slice();
    if is_packed(picture.options) {
        raster.put_pairs(bytes)?;
    } else {
        raster.put_bytes(bytes)?;
    }
    Ok(raster.into_runs())
}

/// Whether the image data is packed as run lengths: bit 2 of the options.
fn is_packed(options: u8) -> bool
    ensures { result ≡ is_packed options }
{
    options / 4 % 2 == 1
}

//! Pictures (ISO 11783-6).

ghost use Rattle.std.specs.Prelude.{◌≡◌, IfOk};
ghost use Rattle.vt_kinds.specs.Records.{seen_picture};

use crate::entries::{Entries, MacroEntry};
use crate::picture_bytes::PictureBytes;
use std::alloc::{AllocError, Global};
use std::convert::AsSlice;

/// A Picture, type 20 (Picture Graphic). Its bytes are stored, not decoded.
#[derive(Drop)]
pub struct Picture<B: AsSlice<u8>> {
    /// The width in pixels on the screen.
    pub width: u16,
    /// The width of the image data, in pixels.
    pub actual_width: u16,
    /// The height of the image data, in pixels.
    pub actual_height: u16,
    /// The format: the number of colours.
    pub format: u8,
    /// The options: stored, not applied.
    pub options: u8,
    /// The transparent colour number, which is not drawn.
    pub transparency: u8,
    /// The image data.
    pub bytes: PictureBytes<B>,
    /// The macros of the object's events.
    pub macros: Entries<MacroEntry>,
}

impl<B: AsSlice<u8>> Picture<B> {
    /// Copies the object into memory of its own.
    pub(crate) fn copied(&self, alloc: Global) -> Result<Picture<Vec<u8>>, AllocError>
        ensures { IfOk result (λ copy. seen_picture copy ≡ seen_picture self.now) }
    {
        Ok(Picture {
            width: self.width,
            actual_width: self.actual_width,
            actual_height: self.actual_height,
            format: self.format,
            options: self.options,
            transparency: self.transparency,
            bytes: self.bytes.copied(alloc)?,
            macros: self.macros.copied(alloc)?,
        })
    }
}

impl<B: AsSlice<u8> + Drop> Picture<B> {
    /// Takes the object over, with its bytes copied into memory of its own.
    pub(crate) fn into_owned(self, alloc: Global) -> Result<Picture<Vec<u8>>, AllocError>
        ensures { IfOk result (λ owned. seen_picture owned ≡ seen_picture self) }
    {
        let Picture {
            width,
            actual_width,
            actual_height,
            format,
            options,
            transparency,
            bytes,
            macros,
        } = self;
        Ok(Picture {
            width,
            actual_width,
            actual_height,
            format,
            options,
            transparency,
            bytes: bytes.copied(alloc)?,
            macros,
        })
    }
}

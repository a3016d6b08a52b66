//! The output fields (ISO 11783-6).

ghost use Rattle.std.specs.Prelude.{◌≡◌, IfOk};
ghost use Rattle.vt_kinds.specs.Records.{seen_output_string};

use crate::entries::{Entries, MacroEntry};
use crate::id::ObjectId;
use crate::long_text::LongText;
use crate::scale::{Decimals, Scale};
use std::alloc::{AllocError, Global};
use std::convert::AsSlice;

/// An Output String, type 11: a field for a text.
#[derive(Drop)]
pub struct OutputString<B: AsSlice<u8>> {
    /// The width in pixels.
    pub width: u16,
    /// The height in pixels.
    pub height: u16,
    /// The colour number of the background.
    pub colour: u8,
    /// The font, or NULL.
    pub font: ObjectId,
    /// The options: stored, not applied.
    pub options: u8,
    /// The String Variable with the text, or NULL.
    pub variable: ObjectId,
    /// The justification of the text: stored, not applied.
    pub justification: u8,
    /// The text.
    pub text: LongText<B>,
    /// The macros of the object's events.
    pub macros: Entries<MacroEntry>,
}

impl<B: AsSlice<u8>> OutputString<B> {
    /// Copies the object into memory of its own.
    pub(crate) fn copied(&self, alloc: Global) -> Result<OutputString<Vec<u8>>, AllocError>
        ensures { IfOk result (λ copy. seen_output_string copy ≡ seen_output_string self.now) }
    {
        Ok(OutputString {
            width: self.width,
            height: self.height,
            colour: self.colour,
            font: self.font,
            options: self.options,
            variable: self.variable,
            justification: self.justification,
            text: self.text.copied(alloc)?,
            macros: self.macros.copied(alloc)?,
        })
    }
}

impl<B: AsSlice<u8> + Drop> OutputString<B> {
    /// Takes the object over, with its bytes copied into memory of its own.
    pub(crate) fn into_owned(self, alloc: Global) -> Result<OutputString<Vec<u8>>, AllocError>
        ensures { IfOk result (λ owned. seen_output_string owned ≡ seen_output_string self) }
    {
        let OutputString {
            width,
            height,
            colour,
            font,
            options,
            variable,
            justification,
            text,
            macros,
        } = self;
        Ok(OutputString {
            width,
            height,
            colour,
            font,
            options,
            variable,
            justification,
            text: text.copied(alloc)?,
            macros,
        })
    }
}

/// An Output Number, type 12: a field for a number.
#[derive(Drop)]
pub struct OutputNumber {
    /// The width in pixels.
    pub width: u16,
    /// The height in pixels.
    pub height: u16,
    /// The colour number of the background.
    pub colour: u8,
    /// The font, or NULL.
    pub font: ObjectId,
    /// The options: stored, not applied.
    pub options: u8,
    /// The Number Variable with the value, or NULL.
    pub variable: ObjectId,
    /// The raw value, before offset and scale.
    pub value: u32,
    /// The offset added to the raw value.
    pub offset: i32,
    /// The factor by which the sum of raw value and offset is multiplied.
    pub scale: Scale,
    /// The number of decimals shown.
    pub decimals: Decimals,
    /// The format: stored, not applied; all numbers are shown with fixed decimals.
    pub format: u8,
    /// The justification of the text: stored, not applied.
    pub justification: u8,
    /// The macros of the object's events.
    pub macros: Entries<MacroEntry>,
}

impl OutputNumber {
    /// Copies the object into memory of its own.
    pub(crate) fn copied(&self, alloc: Global) -> Result<OutputNumber, AllocError>
        ensures { IfOk result (λ copy. copy ≡ self.now) }
    {
        Ok(OutputNumber {
            width: self.width,
            height: self.height,
            colour: self.colour,
            font: self.font,
            options: self.options,
            variable: self.variable,
            value: self.value,
            offset: self.offset,
            scale: self.scale,
            decimals: self.decimals,
            format: self.format,
            justification: self.justification,
            macros: self.macros.copied(alloc)?,
        })
    }
}

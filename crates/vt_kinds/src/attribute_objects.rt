//! The objects with drawing and input attributes of other objects (ISO 11783-6).

ghost use Rattle.std.specs.Prelude.{◌≡◌, IfOk};
ghost use Rattle.vt_kinds.specs.Records.{seen_input_attributes};

use crate::entries::{Entries, MacroEntry};
use crate::id::ObjectId;
use crate::short_text::ShortText;
use std::alloc::{AllocError, Global};
use std::convert::AsSlice;

/// A Font, type 23 (Font Attributes).
#[derive(Drop)]
pub struct Font {
    /// The colour number of the text.
    pub colour: u8,
    /// The size number.
    pub size: u8,
    /// The character set number.
    pub font_type: u8,
    /// A bit for each style, such as bold.
    pub style: u8,
    /// The macros of the object's events.
    pub macros: Entries<MacroEntry>,
}

impl Font {
    /// Copies the object into memory of its own.
    pub(crate) fn copied(&self, alloc: Global) -> Result<Font, AllocError>
        ensures { IfOk result (λ copy. copy ≡ self.now) }
    {
        Ok(Font {
            colour: self.colour,
            size: self.size,
            font_type: self.font_type,
            style: self.style,
            macros: self.macros.copied(alloc)?,
        })
    }
}

/// Line Attributes, type 24: how a line is drawn.
#[derive(Drop)]
pub struct LineAttributes {
    /// The colour number of the line.
    pub colour: u8,
    /// The width in pixels.
    pub width: u8,
    /// The pattern of the line, one bit for each dot.
    pub line_art: u16,
    /// The macros of the object's events.
    pub macros: Entries<MacroEntry>,
}

impl LineAttributes {
    /// Copies the object into memory of its own.
    pub(crate) fn copied(&self, alloc: Global) -> Result<LineAttributes, AllocError>
        ensures { IfOk result (λ copy. copy ≡ self.now) }
    {
        Ok(LineAttributes {
            colour: self.colour,
            width: self.width,
            line_art: self.line_art,
            macros: self.macros.copied(alloc)?,
        })
    }
}

/// Fill Attributes, type 25: how a shape is filled.
#[derive(Drop)]
pub struct FillAttributes {
    /// Whether the shape is filled, and with what.
    pub fill_type: u8,
    /// The fill's colour number.
    pub colour: u8,
    /// The Picture of the fill pattern, or NULL.
    pub pattern: ObjectId,
    /// The macros of the object's events.
    pub macros: Entries<MacroEntry>,
}

impl FillAttributes {
    /// Copies the object into memory of its own.
    pub(crate) fn copied(&self, alloc: Global) -> Result<FillAttributes, AllocError>
        ensures { IfOk result (λ copy. copy ≡ self.now) }
    {
        Ok(FillAttributes {
            fill_type: self.fill_type,
            colour: self.colour,
            pattern: self.pattern,
            macros: self.macros.copied(alloc)?,
        })
    }
}

/// Input Attributes, type 26: the characters that an input accepts. Stored, not applied.
#[derive(Drop)]
pub struct InputAttributes<B: AsSlice<u8>> {
    /// Whether the listed characters are allowed or refused.
    pub validation_type: u8,
    /// The listed characters.
    pub text: ShortText<B>,
    /// The macros of the object's events.
    pub macros: Entries<MacroEntry>,
}

impl<B: AsSlice<u8>> InputAttributes<B> {
    /// Copies the object into memory of its own.
    pub(crate) fn copied(&self, alloc: Global) -> Result<InputAttributes<Vec<u8>>, AllocError>
        ensures { IfOk result (λ copy. seen_input_attributes copy ≡ seen_input_attributes self.now) }
    {
        Ok(InputAttributes {
            validation_type: self.validation_type,
            text: self.text.copied(alloc)?,
            macros: self.macros.copied(alloc)?,
        })
    }
}

impl<B: AsSlice<u8> + Drop> InputAttributes<B> {
    /// Takes the object over, with its bytes copied into memory of its own.
    pub(crate) fn into_owned(self, alloc: Global) -> Result<InputAttributes<Vec<u8>>, AllocError>
        ensures { IfOk result (λ owned. seen_input_attributes owned ≡ seen_input_attributes self) }
    {
        let InputAttributes {
            validation_type,
            text,
            macros,
        } = self;
        Ok(InputAttributes {
            validation_type,
            text: text.copied(alloc)?,
            macros,
        })
    }
}

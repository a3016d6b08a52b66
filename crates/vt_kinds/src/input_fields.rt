//! The input fields (ISO 11783-6).

ghost use Rattle.std.specs.Prelude.{◌≡◌, IfOk};
ghost use Rattle.vt_kinds.specs.Records.{seen_input_string};

use crate::entries::{Entries, MacroEntry};
use crate::id::ObjectId;
use crate::scale::{Decimals, Scale};
use crate::short_text::ShortText;
use std::alloc::{AllocError, Global};
use std::convert::AsSlice;

/// An Input Boolean, type 7: a field for true or false.
#[derive(Drop)]
pub struct InputBoolean {
    /// The colour number of the background.
    pub colour: u8,
    /// The width in pixels.
    pub width: u16,
    /// The font, or NULL.
    pub font: ObjectId,
    /// The Number Variable with the value, or NULL.
    pub variable: ObjectId,
    /// The value: 0 for false, any other value for true.
    pub value: u8,
    /// 0 for disabled, any other value for enabled.
    pub enabled: u8,
    /// The macros of the object's events.
    pub macros: Entries<MacroEntry>,
}

impl InputBoolean {
    /// Copies the object into memory of its own.
    pub(crate) fn copied(&self, alloc: Global) -> Result<InputBoolean, AllocError>
        ensures { IfOk result (λ copy. copy ≡ self.now) }
    {
        Ok(InputBoolean {
            colour: self.colour,
            width: self.width,
            font: self.font,
            variable: self.variable,
            value: self.value,
            enabled: self.enabled,
            macros: self.macros.copied(alloc)?,
        })
    }
}

/// An Input String, type 8: a field for a text.
#[derive(Drop)]
pub struct InputString<B: AsSlice<u8>> {
    /// The width in pixels.
    pub width: u16,
    /// The height in pixels.
    pub height: u16,
    /// The colour number of the background.
    pub colour: u8,
    /// The font, or NULL.
    pub font: ObjectId,
    /// The Input Attributes, or NULL; stored, not applied.
    pub input_attributes: ObjectId,
    /// The options: stored, not applied.
    pub options: u8,
    /// The String Variable with the text, or NULL.
    pub variable: ObjectId,
    /// The justification of the text: stored, not applied.
    pub justification: u8,
    /// The text.
    pub text: ShortText<B>,
    /// 0 for disabled, any other value for enabled.
    pub enabled: u8,
    /// The macros of the object's events.
    pub macros: Entries<MacroEntry>,
}

impl<B: AsSlice<u8>> InputString<B> {
    /// Copies the object into memory of its own.
    pub(crate) fn copied(&self, alloc: Global) -> Result<InputString<Vec<u8>>, AllocError>
        ensures { IfOk result (λ copy. seen_input_string copy ≡ seen_input_string self.now) }
    {
        Ok(InputString {
            width: self.width,
            height: self.height,
            colour: self.colour,
            font: self.font,
            input_attributes: self.input_attributes,
            options: self.options,
            variable: self.variable,
            justification: self.justification,
            text: self.text.copied(alloc)?,
            enabled: self.enabled,
            macros: self.macros.copied(alloc)?,
        })
    }
}

impl<B: AsSlice<u8> + Drop> InputString<B> {
    /// Takes the object over, with its bytes copied into memory of its own.
    pub(crate) fn into_owned(self, alloc: Global) -> Result<InputString<Vec<u8>>, AllocError>
        ensures { IfOk result (λ owned. seen_input_string owned ≡ seen_input_string self) }
    {
        let InputString {
            width,
            height,
            colour,
            font,
            input_attributes,
            options,
            variable,
            justification,
            text,
            enabled,
            macros,
        } = self;
        Ok(InputString {
            width,
            height,
            colour,
            font,
            input_attributes,
            options,
            variable,
            justification,
            text: text.copied(alloc)?,
            enabled,
            macros,
        })
    }
}

/// An Input Number, type 9: a field for a number.
#[derive(Drop)]
pub struct InputNumber {
    /// The width in pixels.
    pub width: u16,
    /// The height in pixels.
    pub height: u16,
    /// The colour number of the background.
    pub colour: u8,
    /// The font, or NULL.
    pub font: ObjectId,
    /// The options: stored, not applied.
    pub options: u8,
    /// The Number Variable with the value, or NULL.
    pub variable: ObjectId,
    /// The raw value, before offset and scale.
    pub value: u32,
    /// The least allowed value.
    pub min: u32,
    /// The greatest allowed value.
    pub max: u32,
    /// The offset added to the raw value.
    pub offset: i32,
    /// The factor by which the sum of raw value and offset is multiplied.
    pub scale: Scale,
    /// The number of decimals shown.
    pub decimals: Decimals,
    /// The format: stored, not applied; all numbers are shown with fixed decimals.
    pub format: u8,
    /// The justification of the text: stored, not applied.
    pub justification: u8,
    /// The second options: bit 0 is set if the field is enabled.
    pub options_two: u8,
    /// The macros of the object's events.
    pub macros: Entries<MacroEntry>,
}

impl InputNumber {
    /// Copies the object into memory of its own.
    pub(crate) fn copied(&self, alloc: Global) -> Result<InputNumber, AllocError>
        ensures { IfOk result (λ copy. copy ≡ self.now) }
    {
        Ok(InputNumber {
            width: self.width,
            height: self.height,
            colour: self.colour,
            font: self.font,
            options: self.options,
            variable: self.variable,
            value: self.value,
            min: self.min,
            max: self.max,
            offset: self.offset,
            scale: self.scale,
            decimals: self.decimals,
            format: self.format,
            justification: self.justification,
            options_two: self.options_two,
            macros: self.macros.copied(alloc)?,
        })
    }
}

/// An Input List, type 10: a field that shows one of its items.
#[derive(Drop)]
pub struct InputList {
    /// The width in pixels.
    pub width: u16,
    /// The height in pixels.
    pub height: u16,
    /// The Number Variable with the value, or NULL.
    pub variable: ObjectId,
    /// The index of the shown item, from 0; 255 for none.
    pub value: u8,
    /// The options: bit 0 is set if the field is enabled.
    pub options: u8,
    /// The items in order, with NULL for an empty one.
    pub items: Entries<ObjectId>,
    /// The macros of the object's events.
    pub macros: Entries<MacroEntry>,
}

impl InputList {
    /// Copies the object into memory of its own.
    pub(crate) fn copied(&self, alloc: Global) -> Result<InputList, AllocError>
        ensures { IfOk result (λ copy. copy ≡ self.now) }
    {
        Ok(InputList {
            width: self.width,
            height: self.height,
            variable: self.variable,
            value: self.value,
            options: self.options,
            items: self.items.copied(alloc)?,
            macros: self.macros.copied(alloc)?,
        })
    }
}

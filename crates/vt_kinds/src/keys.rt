//! Soft key masks, keys and buttons (ISO 11783-6).

ghost use Rattle.std.specs.Prelude.{◌≡◌, IfOk};

use crate::entries::{Child, Entries, MacroEntry};
use crate::id::ObjectId;
use std::alloc::{AllocError, Global};

/// A Soft Key Mask, type 4: the soft keys of a mask.
#[derive(Drop)]
pub struct SoftKeyMask {
    /// The colour number of the background.
    pub colour: u8,
    /// The entries in order: Keys, pointers to Keys, or NULL for an empty entry.
    pub keys: Entries<ObjectId>,
    /// The macros of the object's events.
    pub macros: Entries<MacroEntry>,
}

impl SoftKeyMask {
    /// Copies the object into memory of its own.
    pub(crate) fn copied(&self, alloc: Global) -> Result<SoftKeyMask, AllocError>
        ensures { IfOk result (λ copy. copy ≡ self.now) }
    {
        Ok(SoftKeyMask {
            colour: self.colour,
            keys: self.keys.copied(alloc)?,
            macros: self.macros.copied(alloc)?,
        })
    }
}

/// A Key, type 5: a soft key.
#[derive(Drop)]
pub struct Key {
    /// The colour number of the background.
    pub colour: u8,
    /// The key code in the key's messages.
    pub key_code: u8,
    /// The child objects.
    pub children: Entries<Child>,
    /// The macros of the object's events.
    pub macros: Entries<MacroEntry>,
}

impl Key {
    /// Copies the object into memory of its own.
    pub(crate) fn copied(&self, alloc: Global) -> Result<Key, AllocError>
        ensures { IfOk result (λ copy. copy ≡ self.now) }
    {
        Ok(Key {
            colour: self.colour,
            key_code: self.key_code,
            children: self.children.copied(alloc)?,
            macros: self.macros.copied(alloc)?,
        })
    }
}

/// A Button, type 6: a key on a mask.
#[derive(Drop)]
pub struct Button {
    /// The width in pixels.
    pub width: u16,
    /// The height in pixels.
    pub height: u16,
    /// The colour number of the background.
    pub colour: u8,
    /// The colour number of the border.
    pub border: u8,
    /// The key code in the button's messages.
    pub key_code: u8,
    /// The options: stored, not applied; a latching button acts as a momentary one.
    pub options: u8,
    /// The child objects.
    pub children: Entries<Child>,
    /// The macros of the object's events.
    pub macros: Entries<MacroEntry>,
}

impl Button {
    /// Copies the object into memory of its own.
    pub(crate) fn copied(&self, alloc: Global) -> Result<Button, AllocError>
        ensures { IfOk result (λ copy. copy ≡ self.now) }
    {
        Ok(Button {
            width: self.width,
            height: self.height,
            colour: self.colour,
            border: self.border,
            key_code: self.key_code,
            options: self.options,
            children: self.children.copied(alloc)?,
            macros: self.macros.copied(alloc)?,
        })
    }
}

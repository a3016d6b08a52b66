//! Warnings about the objects of a pool.

use crate::sizes::Area;
use vt_objects::ObjectId;

/// A field that shows a text or a number.
#[derive(Clone, Copy, PartialEq, Eq)]
pub struct TextField {
    /// The ID of the object.
    pub id: ObjectId,
    /// The number of characters up to the last one that is no space.
    pub columns: u32,
    /// Whether the text is shown in one line: it has no line break, and is not wrapped.
    pub is_one_line: bool,
    /// The area of a character.
    pub cell: Area,
    /// The area of the field.
    pub area: Area,
}

/// A child of an object, by the area that it takes there.
#[derive(Clone, Copy, PartialEq, Eq)]
pub struct PlacedElement {
    /// The object that has the child.
    pub parent: ObjectId,
    /// The index of the child in the object's list.
    pub index: u8,
    /// The child, or the value of the pointer that is the child.
    pub id: ObjectId,
    /// The position in the parent from the left, in pixels.
    pub x: i16,
    /// The position in the parent from the top, in pixels.
    pub y: i16,
    /// The width in pixels.
    pub width: u32,
    /// The height in pixels.
    pub height: u32,
}

/// Something that a pool's maker may have overlooked, for which a terminal does not refuse the pool (docs/PROFILE.md, "Warnings").
#[derive(Clone, Copy, PartialEq, Eq)]
pub enum Warning {
    /// No slot, no macro entry and no command of a macro names the object.
    Unused {
        id: ObjectId,
    },
    /// A text in one line is wider than its field.
    TextTooWide(TextField),
    /// A character is higher than its field.
    TextTooHigh(TextField),
    /// A child reaches out of the area of its mask, container, button or key.
    Outside {
        /// The child.
        element: PlacedElement,
        /// The area of the object that has the child.
        area: Area,
    },
    /// A soft key mask has more keys than the terminal shows.
    ExtraKeys {
        /// The soft key mask.
        id: ObjectId,
        /// The number of its keys.
        keys: u8,
        /// The most keys that the terminal shows.
        most: u8,
    },
}

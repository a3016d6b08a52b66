//! The bits of the error byte of a reply (ISO 11783-6, the section of each command). The first test that fails sets one.

/// The object or the parent is missing, or the command is not for its kind.
pub(crate) const OBJECT: u8 = 1 << 0;

/// The object is missing or the command is not for its kind, in Hide/Show, Enable/Disable, Change String Value and
/// Execute Macro.
pub(crate) const OBJECT_ID: u8 = 1 << 1;

/// The child is missing.
pub(crate) const CHILD: u8 = 1 << 1;

/// A value, a direction, a priority or a mask is not allowed.
pub(crate) const VALUE: u8 = 1 << 1;

/// The list has no item at the index.
pub(crate) const INDEX: u8 = 1 << 1;

/// The kind has no attribute of this number.
pub(crate) const ATTRIBUTE: u8 = 1 << 1;

/// The value of an attribute is not allowed.
pub(crate) const ATTRIBUTE_VALUE: u8 = 1 << 2;

/// The item of a list is not allowed.
pub(crate) const ITEM: u8 = 1 << 2;

/// The state is neither 0 nor 1.
pub(crate) const STATE: u8 = 1 << 2;

/// The text is longer than that of the object, or than the bytes of the command.
pub(crate) const LENGTH: u8 = 1 << 2;

/// The ID of the macro is above 255.
pub(crate) const MACRO_ID: u8 = 1 << 2;

/// The pattern of fill attributes is not allowed.
pub(crate) const PATTERN: u8 = 1 << 3;

/// A position leaves the range of a record, or the volume is above 100.
pub(crate) const OTHER: u8 = 1 << 4;

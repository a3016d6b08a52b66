//! Reads the values of fields from a value of four bytes.

ghost use Rattle.std.specs.Prelude.{◌≡◌};
ghost use Rattle.vt_effects.specs.Fields as fields;

use vt_kinds::{Decimals, ObjectId, Scale};

/// The lowest byte of a value.
pub fn byte(value: u32) -> u8
    ensures { result ≡ fields.low_byte value }
{
    (value % 256) as u8
}

/// The two lowest bytes of a value.
pub(crate) fn word(value: u32) -> u16
    ensures { result ≡ fields.low_word value }
{
    (value % 65_536) as u16
}

/// The ID in the two lowest bytes of a value.
pub(crate) fn id(value: u32) -> ObjectId
    ensures { result ≡ fields.low_word value }
{
    ObjectId::from_raw(word(value))
}

/// The scale in the four bytes, or `old` if they are no scale.
pub(crate) fn scale(old: Scale, value: u32) -> Scale
    ensures { result ≡ fields.scale_of old value }
{
    Scale::from_bytes(value.to_le_bytes()).unwrap_or(old)
}

/// The number of decimals in the lowest byte, or `old` if the byte is no number of decimals.
pub(crate) fn decimals(old: Decimals, value: u32) -> Decimals
    ensures { result ≡ fields.decimals_of old value }
{
    Decimals::new(byte(value)).unwrap_or(old)
}

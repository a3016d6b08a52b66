//! The scales and decimals of shown numbers.

ghost use Rattle.std.specs.Prelude.{◌≡◌, ◌<◌, ◌≤◌, IfSome, IfNone};
ghost use Rattle.byteorder.specs.Endian.{little_bytes, little_number};
ghost use Rattle.vt_kinds.specs.Scales.{scale_at, scale_bytes, scale_number, scale_places};

use byteorder::{ByteOrder, LittleEndian};
use std::marker::Model;

/// The factor of a shown number.
#[derive(Clone, Copy, Debug, PartialEq, Eq)]
pub enum Scale {
    /// 1
    One,
    /// 0.1
    Tenth,
    /// 0.01
    Hundredth,
    /// 0.001
    Thousandth,
}

impl Scale {
    /// The scale with these four bytes, or `None` if they are not those of a scale.
    pub fn from_bytes(bytes: [u8; 4]) -> Option<Scale>
        ensures scale { result ≡ scale_at (little_number 4 bytes) }
        ensures number { IfSome result (λ s. scale_number s ≡ little_number 4 bytes) }
    {
        match LittleEndian::read_u32(&bytes) {
            0x3F80_0000 => Some(Scale::One),
            0x3DCC_CCCD => Some(Scale::Tenth),
            0x3C23_D70A => Some(Scale::Hundredth),
            0x3A83_126F => Some(Scale::Thousandth),
            _ => None,
        }
    }

    /// The four bytes of the scale in a record.
    pub fn to_bytes(self) -> [u8; 4]
        ensures bytes { result ≡ scale_bytes self }
        ensures number { little_bytes 4 (scale_number self) ≡ scale_bytes self }
    {
        match self {
            Scale::One => [0x00, 0x00, 0x80, 0x3F],
            Scale::Tenth => [0xCD, 0xCC, 0xCC, 0x3D],
            Scale::Hundredth => [0x0A, 0xD7, 0x23, 0x3C],
            Scale::Thousandth => [0x6F, 0x12, 0x83, 0x3A],
        }
    }

    /// The number of decimal places by which the scale shifts a value, 0 to 3.
    pub fn places(self) -> u8
        ensures { result ≡ scale_places self }
    {
        match self {
            Scale::One => 0,
            Scale::Tenth => 1,
            Scale::Hundredth => 2,
            Scale::Thousandth => 3,
        }
    }
}

/// The number of decimals of a shown number, 0 to 7.
#[derive(Clone, Copy, Debug, PartialEq, Eq)]
pub struct Decimals {
    count: u8,
}

impl Model for Decimals {
    ghost use Rattle.std.specs.Prelude.{ℕ, ◌≤◌};

    ghost Value = { ℕ };

    ghost view = { λ d. d.count };

    ghost inverse = { λ n. record { count = n } };

    ghost invariant = { λ d. d.count ≤ 7 };
}

impl Decimals {
    /// Makes a number of decimals, or `None` for more than 7.
    pub fn new(count: u8) -> Option<Decimals>
        ensures some { IfSome result (λ d. d ≡ count) }
        ensures none { IfNone result (7 < count) }
    {
        if count <= 7 {
            Some(Decimals { count })
        } else {
            None
        }
    }

    /// The number of decimals.
    pub fn count(self) -> u8
        ensures value { result ≡ self }
        ensures most { result ≤ 7 }
    {
        self.count
    }
}

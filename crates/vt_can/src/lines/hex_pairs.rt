//! Decoding of pairs of hex digits by a table.

ghost use Rattle.std.specs.Prelude.{◌≡◌, ◌*◌, true, false, length, map, MatchOption};
ghost use Rattle.std.specs.List.{list_all};
ghost use Rattle.std.specs.Option.{unwrap_or};
ghost use Rattle.hex.specs.Hex.{decode_of, hex_digit_value, is_hex_digit};

use std::simd::prelude::*;

// The value of each byte as a hex digit, or 255 where it is none.
#[rattlefmt::skip]
const HEX_VALUES: [u8; 256] = [
    255, 255, 255, 255, 255, 255, 255, 255, 255, 255, 255, 255, 255, 255, 255, 255,
    255, 255, 255, 255, 255, 255, 255, 255, 255, 255, 255, 255, 255, 255, 255, 255,
    255, 255, 255, 255, 255, 255, 255, 255, 255, 255, 255, 255, 255, 255, 255, 255,
    0, 1, 2, 3, 4, 5, 6, 7, 8, 9, 255, 255, 255, 255, 255, 255,
    255, 10, 11, 12, 13, 14, 15, 255, 255, 255, 255, 255, 255, 255, 255, 255,
    255, 255, 255, 255, 255, 255, 255, 255, 255, 255, 255, 255, 255, 255, 255, 255,
    255, 10, 11, 12, 13, 14, 15, 255, 255, 255, 255, 255, 255, 255, 255, 255,
    255, 255, 255, 255, 255, 255, 255, 255, 255, 255, 255, 255, 255, 255, 255, 255,
    255, 255, 255, 255, 255, 255, 255, 255, 255, 255, 255, 255, 255, 255, 255, 255,
    255, 255, 255, 255, 255, 255, 255, 255, 255, 255, 255, 255, 255, 255, 255, 255,
    255, 255, 255, 255, 255, 255, 255, 255, 255, 255, 255, 255, 255, 255, 255, 255,
    255, 255, 255, 255, 255, 255, 255, 255, 255, 255, 255, 255, 255, 255, 255, 255,
    255, 255, 255, 255, 255, 255, 255, 255, 255, 255, 255, 255, 255, 255, 255, 255,
    255, 255, 255, 255, 255, 255, 255, 255, 255, 255, 255, 255, 255, 255, 255, 255,
    255, 255, 255, 255, 255, 255, 255, 255, 255, 255, 255, 255, 255, 255, 255, 255,
    255, 255, 255, 255, 255, 255, 255, 255, 255, 255, 255, 255, 255, 255, 255, 255,
];

// The value of a hex digit, or 255 for another byte.
#[inline]
fn value_of(digit: u8) -> u8
    ensures { MatchOption (hex_digit_value digit) (result ≡ 255) (λ value. result ≡ value) }
{
    HEX_VALUES[usize::from(digit)]
}

/// Decodes two hex digits into each byte, and returns whether all of them are digits.
pub fn decode(text: &[u8], bytes: &mut [u8]) -> bool
    requires { length text.now ≡ 2 * length bytes.old }
    ensures digits { result ≡ list_all is_hex_digit text.now }
    ensures decoded { result ≡ true → decode_of text.now ≡ Ok bytes.new }
{
    // Below 16 as long as each byte of the text is a digit.
    let mut seen = 0;
    for i in 0..bytes.len() {
        let high = value_of(text[2 * i]);
        let low = value_of(text[2 * i + 1]);
        seen |= high | low;
        bytes[i] = (high << 4).wrapping_add(low);
    }
    seen < 16
}

// The value of each hex digit, and 255 in place of each other byte.
#[inline]
fn values_of<const N: usize>(digits: Simd<u8, N>) -> Simd<u8, N>
    ensures { result ≡ map (λ digit. unwrap_or (hex_digit_value digit) 255) digits.entry }
{
    let numbers = digits - Simd::splat(b'0');
    let letters = (digits | Simd::splat(0x20)) - Simd::splat(b'a');
    let others = Simd::splat(255);
    let of_letters = letters
        .simd_lt(Simd::splat(6))
        .select(letters + Simd::splat(10), others);
    numbers.simd_lt(Simd::splat(10)).select(numbers, of_letters)
}

/// Decodes eight hex digits into four bytes. `None` if one of them is no digit.
pub fn decode_eight(text: &[u8]) -> Option<[u8; 4]>
    requires { length text.now ≡ 8 }
    ensures { MatchOption result (list_all is_hex_digit text.now ≡ false) (λ bytes. (list_all is_hex_digit text.now ≡ true) × (decode_of text.now ≡ Ok bytes)) }
{
    let values = values_of(u8x8::from_slice(text));
    let digits = values.simd_lt(u8x8::splat(16)).to_bitmask();
    if digits != 0xFF {
        return None;
    }
    let (high, low) = values.deinterleave(values);
    let pairs = high * u8x8::splat(16) + low;
    Some(pairs.extract::<0, 4>().to_array())
}

/// Decodes sixteen hex digits into eight bytes. `None` if one of them is no digit.
pub fn decode_sixteen(text: &[u8]) -> Option<[u8; 8]>
    requires { length text.now ≡ 16 }
    ensures { MatchOption result (list_all is_hex_digit text.now ≡ false) (λ bytes. (list_all is_hex_digit text.now ≡ true) × (decode_of text.now ≡ Ok bytes)) }
{
    let values = values_of(u8x16::from_slice(text));
    let digits = values.simd_lt(u8x16::splat(16)).to_bitmask();
    if digits != 0xFFFF {
        return None;
    }
    let (high, low) = values.deinterleave(values);
    let pairs = high * u8x16::splat(16) + low;
    Some(pairs.extract::<0, 8>().to_array())
}

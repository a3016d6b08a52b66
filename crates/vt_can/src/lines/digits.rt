//! Parsing of digits: numbers, an identifier, bytes of data.

ghost use Rattle.std.specs.Prelude.{◌≡◌, ◌≤◌, ℕ, true, false, length, take, MatchOption, MatchResult};
ghost use Rattle.std.specs.List.{list_all};
ghost use Rattle.std.specs.Str.Parse.{digits_value};
ghost use Rattle.hex.specs.Hex.{decode_of, is_hex_digit};
ghost use Rattle.vt_can.specs.lines.Actions.{IsNumber};
ghost use Rattle.vt_can.specs.lines.Line.{AreDigits, IsFraction, id_of, data_reading};

use crate::lines::hex_pairs::{decode, decode_eight, decode_sixteen};
use crate::lines::line::LineFault;
use arrayvec::ArrayVec;

/// Parses a number of `least` to `most` decimal digits.
pub fn number(text: &[u8], least: usize, most: usize) -> Option<u64>
    requires { most ≤ 19 }
    ensures { MatchOption result
        (AreDigits least most text.now → ⊥)
        (λ n. AreDigits least most text.now × (n ≡ digits_value 10 text.now)) }
{
    if text.len() < least || most < text.len() {
        return None;
    }
    let mut value = 0;
    for byte in text {
        if !byte.is_ascii_digit() {
            return None;
        }
        value = value * 10 + u64::from(*byte - b'0');
    }
    Some(value)
}

/// Parses a fraction of a second as microseconds: six digits, or nine with the last three dropped.
pub fn micros(fraction: &[u8]) -> Option<u64>
    ensures { MatchOption result
        (IsFraction fraction.now → ⊥)
        (λ n. IsFraction fraction.now × (n ≡ digits_value 10 (take 6 fraction.now))) }
{
    if fraction.len() == 9 {
        Some(number(fraction, 9, 9)? / 1000)
    } else {
        number(fraction, 6, 6)
    }
}

/// Parses a decimal number of at most `most`, with any number of leading zeros.
pub fn decimal(text: &[u8], most: u32) -> Option<u32>
    ensures { MatchOption result ((n : ℕ) → IsNumber text.now n most → ⊥) (λ n. IsNumber text.now n most) }
{
    if text.is_empty() {
        return None;
    }
    let mut value = 0;
    for byte in text {
        if !byte.is_ascii_digit() {
            return None;
        }
        value = value * 10 + u64::from(*byte - b'0');
        if value > u64::from(most) {
            return None;
        }
    }
    Some(value as u32)
}

/// Whether each byte is a hex digit.
pub fn is_hex(text: &[u8]) -> bool
    ensures { result ≡ list_all is_hex_digit text.now }
{
    text.iter().all(|byte| byte.is_ascii_hexdigit())
}

/// Parses the number of an identifier of eight hex digits.
pub fn raw_id(text: &[u8]) -> Option<u32>
    requires { length text.now ≡ 8 }
    ensures { MatchOption result
        (list_all is_hex_digit text.now ≡ false)
        (λ raw. (list_all is_hex_digit text.now ≡ true) × (raw ≡ id_of (decode_of text.now))) }
{
    let bytes = decode_eight(text)?;
    Some(u32::from_be_bytes(bytes))
}

/// Parses data of up to sixteen hex digits. `Hex` takes precedence over `Length`.
pub fn data_bytes(text: &[u8]) -> Result<ArrayVec<u8, 8>, LineFault>
    ensures { MatchResult result
        (λ v. (decode_of text.now ≡ Ok v.items) × (length v.items ≤ 8))
        (λ e. (time id : ℕ) → data_reading time id (decode_of text.now) ≡ Err e) }
{
    if text.len() == 16 {
        return match decode_sixteen(text) {
            Some(bytes) => Ok(ArrayVec::from(bytes)),
            None => Err(LineFault::Hex),
        };
    }
    if text.len() % 2 == 1 {
        return Err(LineFault::Hex);
    }
    let len = text.len() / 2;
    if len > 8 {
        if !is_hex(text) {
            return Err(LineFault::Hex);
        }
        return Err(LineFault::Length);
    }
    let mut bytes = ArrayVec::from([0; 8]);
    bytes.truncate(len);
    if !decode(text, bytes.as_mut_slice()) {
        return Err(LineFault::Hex);
    }
    Ok(bytes)
}

//! Search for a byte, sixteen bytes at a time.

ghost use Rattle.std.specs.Prelude.{◌+◌, ◌≤◌, length, take, MatchOption};
ghost use Rattle.vt_can.specs.lines.Fields.{IsFirstPlace, Lacks};

use std::simd::prelude::*;

/// Finds the first place of a byte in a text.
pub fn place_of(text: &[u8], byte: u8) -> Option<usize>
    ensures { MatchOption result (Lacks byte text.now) (IsFirstPlace byte text.now) }
{
    if text.len() < 16 {
        return text.iter().position(|other| *other == byte);
    }
    let last = text.len() - 16;
    let mut from = 0;
    while from < last {
        if let Some(place) = place_among(text, from, byte) {
            return Some(place);
        }
        from += 16;
    }
    place_among(text, last, byte)
}

// Finds the byte among the sixteen bytes from a place on. It does not stand before them.
#[inline]
fn place_among(text: &[u8], from: usize, byte: u8) -> Option<usize>
    requires within { from + 16 ≤ length text.now }
    requires before { Lacks byte (take from text.now) }
    ensures { MatchOption result (Lacks byte (take (from + 16) text.now)) (IsFirstPlace byte text.now) }
{
    let bytes = u8x16::from_slice(&text[from..]);
    let marks = bytes.simd_eq(u8x16::splat(byte)).to_bitmask();
    if marks == 0 {
        return None;
    }
    Some(from + marks.trailing_zeros() as usize)
}

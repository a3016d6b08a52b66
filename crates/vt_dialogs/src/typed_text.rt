//! The text of a typed number.

ghost use Rattle.std.specs.Prelude.{◌≡◌, ◌≤◌, ◌<◌, ◌^◌, IfSome, length};
ghost use Rattle.std.specs.Option.{option_map};
ghost use Rattle.vt_dialogs.specs.TypedTexts as texts;

use crate::typed::Typed;

/// Reads a number as the operator typed it: an optional minus sign, digits, and optionally a point and more digits, at most 15 digits in
/// all. `None` for any other text.
pub fn typed_of(text: &[u8]) -> Option<Typed>
    ensures { result ≡ texts.typed_of text.now }
{
    match text {
        [b'-', rest @ ..] => typed_from(true, rest),
        _ => typed_from(false, text),
    }
}

fn typed_from(is_negative: bool, text: &[u8]) -> Option<Typed>
    ensures { result ≡ texts.typed_from is_negative text.now }
{
    let (whole, fraction) = parts_of(text);
    let digits = digits_of(whole)?;
    let Some(fraction) = fraction else {
        return Some(Typed {
            is_negative,
            digits,
            decimals: 0,
        });
    };
    let behind = digits_of(fraction)?;
    if whole.len() + fraction.len() > 15 {
        return None;
    }
    let decimals = fraction.len() as u32;
    Some(Typed {
        is_negative,
        digits: digits * 10u64.pow(decimals) + behind,
        decimals,
    })
}

/// What is before the first point, and what is behind it if there is one.
fn parts_of(text: &[u8]) -> (&[u8], Option<&[u8]>)
    ensures whole { result.0.now ≡ texts.whole_of text.now }
    ensures fraction { option_map (λ s. s.now) result.1 ≡ texts.fraction_of text.now }
{
    for at in 0..text.len() {
        if text[at] == b'.' {
            return (&text[..at], Some(&text[at + 1..]));
        }
    }
    (text, None)
}

/// The number of 1 to 15 digits.
fn digits_of(text: &[u8]) -> Option<u64>
    ensures value { result ≡ texts.digits_in text.now }
    ensures most { IfSome result (λ n. n < 10 ^ length text.now) }
{
    if text.is_empty() || text.len() > 15 {
        return None;
    }
    let mut value = 0;
    for byte in text {
        if !byte.is_ascii_digit() {
            return None;
        }
        value = value * 10 + u64::from(*byte - b'0');
    }
    Some(value)
}

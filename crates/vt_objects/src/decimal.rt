//! The decimal text of shown numbers.

ghost use Rattle.std.specs.Prelude.{◌≡◌, ◌<◌, ◌≤◌, ◌+◌, ◌*◌, ◌/◌, ◌^◌, ◌++◌, ◌+ℤ◌, pos, length, codes, [], if◌then◌else◌, int_lt, nat_lt, ◌&&◌, nat_abs};
ghost use Rattle.std.specs.Fmt.{decimal};
ghost use Rattle.arrayvec.specs.ArrayString.{array_string_len};
ghost use Rattle.vt_kinds.specs.Scales.{scale_places};
ghost use Rattle.vt_objects.specs.Decimals.{IsShownText, shown_text, zero_padded, fraction_text};

use arrayvec::ArrayString;
use itoa::Buffer;
use vt_kinds::{Decimals, Scale};

/// A number to show: value plus offset, times the scale, rounded to the decimals, half away from zero.
#[derive(Clone, Copy, PartialEq, Eq)]
pub struct Decimal {
    pub value: u32,
    pub offset: i32,
    pub scale: Scale,
    pub decimals: Decimals,
}

impl Decimal {
    /// The shown text, at most 19 bytes: `-` if the rounded number is below zero, then its digits with exactly
    /// `decimals` decimals.
    pub fn shown(&self) -> ArrayString<20>
        ensures text { IsShownText (pos self.now.value +ℤ self.now.offset) (scale_places self.now.scale) self.now.decimals result.bytes }
        ensures computed { result.bytes ≡ shown_text (pos self.now.value +ℤ self.now.offset) (scale_places self.now.scale) self.now.decimals }
        ensures most { length result.bytes ≤ 19 }
    {
        let decimals = self.decimals.count();
        let unit = power_of_ten(decimals);
        let divisor = power_of_ten(self.scale.places());
        let sum = sum(self.value, self.offset);
        let magnitude = rounded(size(sum), unit, divisor);
        written(is_below_zero(sum, magnitude), magnitude, decimals, unit)
    }
}

/// The value plus its offset.
fn sum(value: u32, offset: i32) -> i64
    ensures sum { result ≡ pos value +ℤ offset }
    ensures most { nat_abs result < 2 ^ 33 }
{
    i64::from(value) + i64::from(offset)
}

/// The absolute value of a sum.
fn size(sum: i64) -> u64
    ensures { result ≡ nat_abs sum }
{
    sum.unsigned_abs()
}

/// A number times a unit, divided by a divisor and rounded to the nearest whole number, half up.
fn rounded(number: u64, unit: u64, divisor: u64) -> u64
    requires number { number < 2 ^ 33 }
    requires unit { unit ≤ 10 ^ 7 }
    requires divisor { 0 < divisor }
    requires most { divisor ≤ 1000 }
    ensures nearest { result ≡ (2 * (number * unit) + divisor) / (2 * divisor) }
    ensures whole { result / unit < 10 ^ 10 }
{
    (2 * (number * unit) + divisor) / (2 * divisor)
}

/// Whether a sum is shown with `-`: it is negative and does not round to 0.
fn is_below_zero(sum: i64, magnitude: u64) -> bool
    ensures { result ≡ (int_lt sum (pos 0) && nat_lt 0 magnitude) }
{
    sum < 0 && magnitude > 0
}

/// 10 to an exponent of at most 7.
fn power_of_ten(exponent: u8) -> u64
    requires { exponent ≤ 7 }
    ensures value { result ≡ 10 ^ exponent }
    ensures some { 0 < result }
    ensures most { result ≤ 10 ^ 7 }
{
    10u64.pow(u32::from(exponent))
}

/// A number of units with its sign, in decimal.
fn written(negative: bool, magnitude: u64, decimals: u8, unit: u64) -> ArrayString<20>
    requires decimals { decimals ≤ 7 }
    requires unit { unit ≡ 10 ^ decimals }
    requires some { 0 < unit }
    requires whole { magnitude / unit < 10 ^ 10 }
    ensures text { result.bytes ≡ (if negative then codes "-" else []) ++ decimal (magnitude / unit) ++ fraction_text decimals magnitude }
    ensures most { length result.bytes ≤ 19 }
{
    let mut text = sign(negative);
    let mut whole = Buffer::new();
    text.push_str(whole.format(magnitude / unit));
    if decimals > 0 {
        push_fraction(&mut text, decimals, magnitude % unit);
    }
    text
}

/// `-` for a negative number, else empty.
fn sign(negative: bool) -> ArrayString<20>
    ensures text { result.bytes ≡ if negative then codes "-" else [] }
    ensures most { length result.bytes ≤ 1 }
{
    let mut text = ArrayString::new();
    if negative {
        text.push('-');
    }
    text
}

/// Appends the decimal point and `fraction`, padded with zeros to `decimals` digits.
fn push_fraction(text: &mut ArrayString<20>, decimals: u8, fraction: u64)
    requires some { 0 < decimals }
    requires decimals { decimals ≤ 7 }
    requires fraction { fraction < 10 ^ decimals }
    requires spare { array_string_len text.old ≤ 11 }
    ensures text { text.new.bytes ≡ text.old.bytes ++ codes "." ++ zero_padded decimals fraction }
    ensures len { array_string_len text.new ≡ array_string_len text.old + 1 + decimals }
{
    let mut buffer = Buffer::new();
    let digits = buffer.format(fraction);
    text.push('.');
    for _ in digits.len()..usize::from(decimals) {
        text.push('0');
    }
    text.push_str(digits);
}

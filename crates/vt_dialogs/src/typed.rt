//! Numbers that the operator types.

ghost use Rattle.std.specs.Prelude.{◌≡◌, ◌<◌, ◌≤◌, ◌*◌, ◌^◌, ◌+ℤ◌, ℕ, pos, IfSome, MatchOption};
ghost use Rattle.vt_dialogs.specs.TypedNumbers.{IsRaw, with_sign};

use vt_objects::InputNumber;

/// A number as the operator typed it: its digits without the point, and the number of digits after the point. For example, -20.5 has the
/// digits 205 and one decimal.
#[derive(Clone, Copy, PartialEq, Eq)]
pub struct Typed {
    /// Whether it has a minus sign.
    pub is_negative: bool,
    /// The digits as a number, less than 10 to the 15.
    pub digits: u64,
    /// The number of digits after the point, at most 15.
    pub decimals: u32,
}

/// The raw value whose shown number, before it is rounded to the decimals of the input, is exactly the typed one. `None` if there is
/// none of 32 bits, such as for 20.55 if the scale is 0.1. It may be outside the limits of the input.
pub fn raw_of(input: &InputNumber, typed: Typed) -> Option<u32>
    requires digits { typed.digits < 10 ^ 15 }
    requires decimals { typed.decimals ≤ 15 }
    ensures { MatchOption result
        ((raw : ℕ) → raw < 2 ^ 32 → IsRaw input.now typed raw → ⊥)
        (λ raw. IsRaw input.now typed raw) }
{
    let offset = input.offset;
    let size = size_of(typed, input.scale.places())?;
    raw_from(typed.is_negative, size, offset)
}

/// The typed number without its sign, times 10 to the decimal places of a scale, if that is a whole number.
fn size_of(typed: Typed, places: u8) -> Option<u64>
    requires digits { typed.digits < 10 ^ 15 }
    requires decimals { typed.decimals ≤ 15 }
    requires places { places ≤ 3 }
    ensures size { MatchOption result
        ((size : ℕ) → size * 10 ^ typed.decimals ≡ typed.digits * 10 ^ places → ⊥)
        (λ size. size * 10 ^ typed.decimals ≡ typed.digits * 10 ^ places) }
    ensures most { IfSome result (λ size. size < 10 ^ 18) }
{
    let unit = power_of_ten(typed.decimals);
    let scaled = typed.digits * power_of_ten(u32::from(places));
    if scaled % unit != 0 {
        return None;
    }
    Some(scaled / unit)
}

/// 10 to an exponent of at most 15.
fn power_of_ten(exponent: u32) -> u64
    requires { exponent ≤ 15 }
    ensures value { result ≡ 10 ^ exponent }
    ensures some { 0 < result }
    ensures three { exponent ≤ 3 → result ≤ 1000 }
{
    10u64.pow(exponent)
}

/// The raw value that is a number with this sign and size once the offset is added, if it has 32 bits.
fn raw_from(is_negative: bool, size: u64, offset: i32) -> Option<u32>
    requires { size < 10 ^ 18 }
    ensures { MatchOption result
        ((raw : ℕ) → raw < 2 ^ 32 → pos raw +ℤ offset ≡ with_sign is_negative size → ⊥)
        (λ raw. pos raw +ℤ offset ≡ with_sign is_negative size) }
{
    let size = size as i64;
    let sum = if is_negative { -size } else { size };
    u32::try_from(sum - i64::from(offset)).ok()
}

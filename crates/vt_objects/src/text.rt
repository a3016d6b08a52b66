//! Numbers in a text.

ghost use Rattle.std.specs.Prelude.{◌≡◌, ◌++◌, OnOk};

use itoa::{Buffer, Integer};
use std::alloc::AllocError;

/// Appends a text and then a number in decimal. After `AllocError` the text may be appended without the number.
pub fn push_number<I: Integer>(
    out: &mut Vec<u8>,
    before: &[u8],
    number: I,
) -> Result<(), AllocError>
    ensures { OnOk result (out.new.items ≡ out.old.items ++ (before.now ++ I.text number)) }
{
    out.extend_from_slice(before)?;
    out.extend_from_slice(Buffer::new().format(number).as_bytes())
}

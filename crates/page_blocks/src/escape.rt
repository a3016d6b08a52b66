//! Lines of JSON as data of the page.

ghost use Rattle.std.specs.Prelude.{◌≡◌, ◌++◌, OnOk};
ghost use Rattle.std.specs.List.{flat_map};
ghost use Rattle.page_blocks.specs.Escapes.{begins_tag, escaped};

use std::alloc::AllocError;

/// What is written for `<`. In JSON `<` is only in texts, and this is the same character there.
const ESCAPE: &[u8] = b"\\u003c";

/// Appends a text with an escape for each `<`, so that it begins no tag.
pub(crate) fn put_escaped(text: &[u8], out: &mut Vec<u8>) -> Result<(), AllocError>
    ensures { OnOk result (out.new.items ≡ out.old.items ++ flat_map escaped text.now) }
{
    for byte in text {
        put_byte(*byte, out)?;
    }
    Ok(())
}

/// Appends a byte, or its escape.
fn put_byte(byte: u8, out: &mut Vec<u8>) -> Result<(), AllocError>
    ensures { OnOk result (out.new.items ≡ out.old.items ++ escaped byte) }
{
    if begins_tag(byte) {
        return out.extend_from_slice(ESCAPE);
    }
    out.push(byte)?;
    Ok(())
}

/// Whether a byte begins a tag.
fn begins_tag(byte: u8) -> bool
    ensures { result ≡ begins_tag byte }
{
    byte == b'<'
}

//! Writes the parts of a line: positions, sizes, numbers and texts.

ghost use Rattle.std.specs.Prelude.{◌≡◌, ◌++◌, ◌<◌, ◌≤◌, List, OnOk, codes, length, take, Some};
ghost use Rattle.std.specs.Option.{option_map};
ghost use Rattle.std.specs.List.{flat_map};
ghost use Rattle.vt_kinds.specs.Scales.{scale_places};
ghost use Rattle.vt_layout.specs.Lines as parts;

use crate::element::Element;
use crate::line_end::LineEnd;
use std::alloc::AllocError;
use vt_objects::{Decimal, Decimals, Scale, push_number};

/// The most bytes of a text that a line shows.
const MOST_OF_TEXT: usize = 64;

/// Writes the name of a kind, the ID and the position of an element.
#[inline]
pub(crate) fn write_positioned(
    text: &mut Vec<u8>,
    name: &[u8],
    element: Element,
) -> Result<(), AllocError>
    requires { length name.now ≤ 9 }
    ensures { OnOk result (text.new.items ≡ text.old.items ++ parts.positioned name.now element) }
{
    let mut end = LineEnd::new();
    end.put_positioned(name, element);
    text.extend_from_slice(end.as_slice())
}

/// Writes the name of a kind, the ID, the position and the size of an element.
#[inline]
pub(crate) fn write_box(
    text: &mut Vec<u8>,
    name: &[u8],
    element: Element,
    width: u16,
    height: u16,
) -> Result<(), AllocError>
    requires { length name.now ≤ 9 }
    ensures { OnOk result (text.new.items ≡ text.old.items ++ (parts.positioned name.now element ++ parts.size_text width height)) }
{
    let mut end = LineEnd::new();
    end.put_size(width, height);
    end.put_positioned(name, element);
    text.extend_from_slice(end.as_slice())
}

/// Writes the line of a button: its ID, position and size, and its key code.
#[inline]
pub(crate) fn write_button(
    text: &mut Vec<u8>,
    element: Element,
    width: u16,
    height: u16,
    code: u8,
) -> Result<(), AllocError>
    ensures { OnOk result (text.new.items ≡ text.old.items ++ (parts.positioned (codes "button") element ++ (parts.size_text width height ++ parts.coded code))) }
{
    let mut end = LineEnd::new();
    end.put_code(code);
    end.put_size(width, height);
    end.put_positioned(b"button", element);
    text.extend_from_slice(end.as_slice())
}

/// Writes a number.
pub(crate) fn write_number(text: &mut Vec<u8>, number: u32) -> Result<(), AllocError>
    ensures { OnOk result (text.new.items ≡ text.old.items ++ parts.number_text number) }
{
    push_number(text, b" ", number)
}

/// Writes a number, if there is one.
pub(crate) fn write_value(text: &mut Vec<u8>, value: Option<u32>) -> Result<(), AllocError>
    ensures { OnOk result (text.new.items ≡ text.old.items ++ parts.valued value) }
{
    match value {
        None => Ok(()),
        Some(number) => write_number(text, number),
    }
}

/// Writes whether a value is true: every value except 0 is.
pub(crate) fn write_decision(text: &mut Vec<u8>, value: Option<u32>) -> Result<(), AllocError>
    ensures { OnOk result (text.new.items ≡ text.old.items ++ parts.decided value) }
{
    match value {
        None => Ok(()),
        Some(0) => text.extend_from_slice(b" false"),
        Some(_) => text.extend_from_slice(b" true"),
    }
}

/// Writes a key code.
pub(crate) fn write_code(text: &mut Vec<u8>, code: u8) -> Result<(), AllocError>
    ensures { OnOk result (text.new.items ≡ text.old.items ++ parts.coded code) }
{
    push_number(text, b" code ", code)
}

/// Writes a number with its offset, scale and decimals.
pub(crate) fn write_shown(
    text: &mut Vec<u8>,
    value: Option<u32>,
    offset: i32,
    scale: Scale,
    decimals: Decimals,
) -> Result<(), AllocError>
    ensures { OnOk result (text.new.items ≡ text.old.items ++ parts.scaled_text offset (scale_places scale) decimals value) }
{
    let Some(value) = value else {
        return Ok(());
    };
    let number = Decimal {
        value,
        offset,
        scale,
        decimals,
    };
    write_after_space(text, number.shown().as_str().as_bytes())
}

/// Writes a space, and then bytes as they are.
fn write_after_space(text: &mut Vec<u8>, bytes: &[u8]) -> Result<(), AllocError>
    ensures { OnOk result (text.new.items ≡ text.old.items ++ (codes " " ++ bytes.now)) }
{
    text.extend_from_slice(b" ")?;
    text.extend_from_slice(bytes)
}

/// Writes the first bytes of a text in quotes, if there is a text.
pub(crate) fn write_quoted(text: &mut Vec<u8>, bytes: Option<&[u8]>) -> Result<(), AllocError>
    ensures { OnOk result (text.new.items ≡ text.old.items ++ parts.quoted (option_map (λ b. b.now) bytes.entry)) }
{
    let Some(bytes) = bytes else {
        return Ok(());
    };
    text.extend_from_slice(b" \"")?;
    for byte in &bytes[..bytes.len().min(MOST_OF_TEXT)] {
        write_escaped(text, *byte)?;
    }
    text.extend_from_slice(b"\"")
}

/// Writes a byte as it is, or escaped by its digits.
fn write_escaped(text: &mut Vec<u8>, byte: u8) -> Result<(), AllocError>
    ensures { OnOk result (text.new.items ≡ text.old.items ++ parts.escaped byte) }
{
    if is_plain(byte) {
        return text.extend_from_slice(&[byte]);
    }
    let digits = hex::encode_upper(*text.allocator(), [byte])?;
    text.extend_from_slice(b"\\x")?;
    text.extend_from_slice(digits.as_bytes())
}

/// Whether a byte is written as it is: from 20 to 7E, except `"` and `\`.
fn is_plain(byte: u8) -> bool
    ensures { result ≡ parts.is_plain byte }
{
    matches!(byte, 0x20..=0x7E) && byte != b'"' && byte != b'\\'
}

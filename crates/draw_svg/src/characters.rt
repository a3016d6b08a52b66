//! Characters of Latin 1 between tags.

ghost use Rattle.std.specs.Prelude.{◌≡◌, ◌++◌, OnOk};
ghost use Rattle.std.specs.List.{flat_map};
ghost use Rattle.draw_svg.specs.Characters.{is_plain, reference_number, escaped};

use itoa::Buffer;
use std::alloc::AllocError;

/// The number of the character that stands for a control character: a dot in the middle of the line.
const DOT: u8 = 0xB7;

/// Appends characters of Latin 1. Those that could be markup or are no ASCII are written as references to their numbers, and each
/// control character as a dot.
///
/// # Errors
/// `AllocError` when an allocation is refused; some characters may then be appended.
pub fn text(out: &mut Vec<u8>, characters: &[u8]) -> Result<(), AllocError>
    ensures { OnOk result (out.new.items ≡ out.old.items ++ flat_map escaped characters.now) }
{
    for character in characters {
        push_character(out, *character)?;
    }
    Ok(())
}

fn push_character(out: &mut Vec<u8>, character: u8) -> Result<(), AllocError>
    ensures { OnOk result (out.new.items ≡ out.old.items ++ escaped character) }
{
    if is_plain(character) {
        out.push(character)?;
        return Ok(());
    }
    out.extend_from_slice(b"&#")?;
    out.extend_from_slice(Buffer::new().format(reference_number(character)).as_bytes())?;
    out.extend_from_slice(b";")
}

/// Whether a character is written as itself: ASCII, and neither a control character nor one of `"`, `&`, `<` and `>`.
fn is_plain(character: u8) -> bool
    ensures { result ≡ is_plain character }
{
    matches!(character, 0x20..=0x7E) && !matches!(character, b'"' | b'&' | b'<' | b'>')
}

/// The number of a character, and for a control character that of a dot.
fn reference_number(character: u8) -> u8
    ensures { result ≡ reference_number character }
{
    match character {
        0x00..=0x1F | 0x7F..=0x9F => DOT,
        _ => character,
    }
}

//! The plain form of a line.

ghost use Rattle.std.specs.Prelude.{◌≡◌, ◌++◌, OnOk};
ghost use Rattle.vt_recorded.specs.PlainForms.{is_data, is_direction, is_of_fd, is_pair, pairs, data_form, frame_form, plain_form, without_direction};

use crate::words::{next_word, starts_with, unpadded};
use std::alloc::AllocError;

/// Appends the plain form of a line.
pub(crate) fn put_plain_form(line: &[u8], plain: &mut Vec<u8>) -> Result<(), AllocError>
    ensures { OnOk result (plain.new.items ≡ plain.old.items ++ plain_form line.now) }
{
    let (time, rest) = next_word(line);
    let (interface, rest) = next_word(rest);
    plain.extend_from_slice(time)?;
    plain.push(b' ')?;
    plain.extend_from_slice(interface)?;
    plain.push(b' ')?;
    put_frame(without_direction(unpadded(rest)), plain)
}

/// A text without the direction and the flags at its front, which candump -x writes.
fn without_direction(text: &[u8]) -> &[u8]
    ensures { result.now ≡ without_direction text.now }
{
    let (direction, rest) = next_word(text);
    if !is_direction(direction) {
        return text;
    }
    let (_, rest) = next_word(rest);
    let (_, rest) = next_word(rest);
    unpadded(rest)
}

/// Whether a word is the direction of a frame.
fn is_direction(word: &[u8]) -> bool
    ensures { result ≡ is_direction word.now }
{
    word == b"RX".as_slice() || word == b"TX".as_slice()
}

/// Appends the frame of a line, which begins behind its time and its interface.
fn put_frame(text: &[u8], plain: &mut Vec<u8>) -> Result<(), AllocError>
    ensures { OnOk result (plain.new.items ≡ plain.old.items ++ frame_form text.now) }
{
    let (first, rest) = next_word(text);
    let (second, rest) = next_word(rest);
    if !starts_with(b'[', second) {
        plain.extend_from_slice(text)?;
        return Ok(());
    }
    plain.extend_from_slice(first)?;
    plain.push(b'#')?;
    if is_of_fd(second) {
        plain.push(b'#')?;
        return Ok(());
    }
    put_data(rest, plain)
}

/// Whether a number of bytes in brackets is that of a CAN FD frame, which has two digits.
fn is_of_fd(word: &[u8]) -> bool
    ensures { result ≡ is_of_fd word.now }
{
    word.len() == 4
}

/// Appends the data of a frame.
fn put_data(text: &[u8], plain: &mut Vec<u8>) -> Result<(), AllocError>
    ensures { OnOk result (plain.new.items ≡ plain.old.items ++ data_form text.now) }
{
    let (first, _) = next_word(text);
    if starts_with(b'r', first) {
        plain.push(b'R')?;
    } else if is_data(first) {
        put_pairs(text, 8, plain)?;
    } else {
        plain.push(b' ')?;
    }
    Ok(())
}

/// Whether a word is a byte of data, or there is none: the text ends, or the characters of candump -a begin.
fn is_data(word: &[u8]) -> bool
    ensures { result ≡ is_data word.now }
{
    is_pair(word) || word.is_empty() || starts_with(b'\'', word)
}

/// Appends the bytes at the front of a text, at most `most` of them.
fn put_pairs(text: &[u8], most: u8, plain: &mut Vec<u8>) -> Result<(), AllocError>
    ensures { OnOk result (plain.new.items ≡ plain.old.items ++ pairs most text.now) }
{
    if most == 0 {
        return Ok(());
    }
    let (first, rest) = next_word(text);
    if !is_pair(first) {
        return Ok(());
    }
    plain.extend_from_slice(first)?;
    put_pairs(rest, most - 1, plain)?;
    Ok(())
}

/// Whether a word is a byte of data: two characters that are no quotation.
fn is_pair(text: &[u8]) -> bool
    ensures { result ≡ is_pair text.now }
{
    text.len() == 2 && text[0] != b'\''
}

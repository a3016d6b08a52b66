//! The end of a line, built from its last byte to its first.

ghost use Rattle.std.specs.Prelude.{◌≡◌, ◌≤◌, ◌+◌, ◌∷◌, ◌++◌, [], codes, length};
ghost use Rattle.std.specs.Fmt.{decimal, signed_decimal};
ghost use Rattle.vt_layout.specs.Lines as parts;

use crate::element::Element;
use itoa::write_digits;
use std::marker::Model;

/// The most bytes.
const ROOM: usize = 64;

/// The end of a line, built from its last byte to its first, since the digits of a number are found in that order. So a line
/// is appended to a text by one copy, and not by one for each number.
#[derive(Drop)]
pub(crate) struct LineEnd {
    bytes: [u8; ROOM],
    start: usize,
}

impl Model for LineEnd {
    ghost use Rattle.std.specs.Prelude.{◌≡◌, ◌≤◌, ℕ, List, length, drop};

    ghost Value = { List ℕ };

    ghost view = { λ e. drop e.start e.bytes };

    ghost invariant = { λ e. (e.start ≤ 64) × (length e.bytes ≡ 64) };
}

impl LineEnd {
    /// No bytes yet.
    #[inline]
    pub(crate) fn new() -> LineEnd
        ensures { result ≡ [] }
    {
        LineEnd {
            bytes: [0; ROOM],
            start: ROOM,
        }
    }

    /// The bytes.
    #[inline]
    pub(crate) fn as_slice(&self) -> &[u8]
        ensures { result.now ≡ self.now }
    {
        &self.bytes[self.start..]
    }

    /// Puts the name of a kind, the ID and the position of an element in front.
    #[inline]
    pub(crate) fn put_positioned(&mut self, name: &[u8], element: Element)
        requires name { length name.now ≤ 9 }
        requires room { length self.old ≤ 25 }
        ensures { self.new ≡ parts.positioned name.now element ++ self.old }
    {
        self.put_signed(element.at.y);
        self.put_signed(element.at.x);
        self.put_number(b' ', element.id.raw());
        self.put_text(name);
    }

    /// Puts a size in pixels in front.
    #[inline]
    pub(crate) fn put_size(&mut self, width: u16, height: u16)
        requires { length self.old ≤ 40 }
        ensures text { self.new ≡ parts.size_text width height ++ self.old }
        ensures short { length self.new ≤ length self.old + 12 }
    {
        self.put_number(b'x', height);
        self.put_number(b' ', width);
    }

    /// Puts a key code in front.
    #[inline]
    pub(crate) fn put_code(&mut self, code: u8)
        requires { length self.old ≤ 40 }
        ensures text { self.new ≡ parts.coded code ++ self.old }
        ensures short { length self.new ≤ length self.old + 11 }
    {
        self.put_number(b' ', u16::from(code));
        self.put_text(b" code");
    }

    /// Puts a number in front, with a byte before it.
    #[inline]
    fn put_number(&mut self, before: u8, number: u16)
        requires { length self.old + 6 ≤ 64 }
        ensures text { self.new ≡ before ∷ decimal number ++ self.old }
        ensures short { length self.new ≤ length self.old + 6 }
    {
        self.put_digits(u64::from(number));
        self.put_byte(before);
    }

    /// Puts a number with its sign in front, and a space before it.
    #[inline]
    fn put_signed(&mut self, number: i32)
        requires { length self.old + 12 ≤ 64 }
        ensures text { self.new ≡ 32 ∷ signed_decimal number ++ self.old }
        ensures short { length self.new ≤ length self.old + 12 }
    {
        self.put_digits(u64::from(number.unsigned_abs()));
        if number < 0 {
            self.put_byte(b'-');
        }
        self.put_byte(b' ');
    }

    #[inline]
    fn put_digits(&mut self, number: u64)
        requires { length (decimal number) + length self.old ≤ 64 }
        ensures text { self.new ≡ decimal number ++ self.old }
        ensures len { length self.new ≡ length (decimal number) + length self.old }
    {
        self.start = write_digits(number, &mut self.bytes, self.start);
    }

    #[inline]
    fn put_byte(&mut self, byte: u8)
        requires { length self.old + 1 ≤ 64 }
        ensures text { self.new ≡ byte ∷ self.old }
        ensures len { length self.new ≡ length self.old + 1 }
    {
        self.start -= 1;
        self.bytes[self.start] = byte;
    }

    #[inline]
    fn put_text(&mut self, text: &[u8])
        requires { length text.now + length self.old ≤ 64 }
        ensures text { self.new ≡ text.now ++ self.old }
        ensures len { length self.new ≡ length text.now + length self.old }
    {
        let end = self.start;
        self.start -= text.len();
        self.bytes[self.start..end].copy_from_slice(text);
    }
}

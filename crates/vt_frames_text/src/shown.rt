//! Bytes, texts and addresses of the bus in words.

use crate::functions::function_name;
use std::fmt;
use vt_can::assigned::GLOBAL_ADDRESS;
use vt_kinds::Scale;

/// A byte in hex, two digits, such as `A0`.
#[derive(Clone, Copy, Drop)]
pub struct HexByte(pub u8);

impl fmt::Display for HexByte {
    fn fmt<W: fmt::Write>(&self, f: &mut fmt::Formatter<W>) -> fmt::Result {
        let mut digits = [0; 2];
        // A byte has two digits, so this does not fail.
        let _ = hex::encode_to_slice([self.0], &mut digits);
        digits.make_ascii_uppercase();
        f.write_str(str::from_utf8(&digits).unwrap_or_default())
    }
}

/// Bytes in hex, two digits each, such as `A0 64 00`, or `no bytes`.
#[derive(Clone, Copy, Drop)]
pub struct HexBytes<'a>(pub &'a [u8]);

impl fmt::Display for HexBytes<'_> {
    fn fmt<W: fmt::Write>(&self, f: &mut fmt::Formatter<W>) -> fmt::Result {
        let Some((first, rest)) = self.0.split_first() else {
            return f.write_str("no bytes");
        };
        write!(f, "{}", HexByte(*first))?;
        for byte in rest {
            write!(f, " {}", HexByte(*byte))?;
        }
        Ok(())
    }
}

/// A text of the bus in quotation marks, with a dot for each byte that is no printable ASCII.
#[derive(Clone, Copy, Drop)]
pub struct QuotedText<'a>(pub &'a [u8]);

impl fmt::Display for QuotedText<'_> {
    fn fmt<W: fmt::Write>(&self, f: &mut fmt::Formatter<W>) -> fmt::Result {
        f.write_str("\"")?;
        for byte in self.0 {
            let is_printable = byte.is_ascii_graphic() || *byte == b' ';
            let shown = if is_printable { *byte } else { b'.' };
            write!(f, "{}", char::from(shown))?;
        }
        f.write_str("\"")
    }
}

/// The destination of a frame: an address in hex, or `all`.
#[derive(Clone, Copy, Drop)]
pub struct Destination(pub Option<u8>);

impl fmt::Display for Destination {
    fn fmt<W: fmt::Write>(&self, f: &mut fmt::Formatter<W>) -> fmt::Result {
        match self.0 {
            None | Some(GLOBAL_ADDRESS) => f.write_str("all"),
            Some(address) => write!(f, "{}", HexByte(address)),
        }
    }
}

/// A message for which there are no other words: its function by name or by number, and its bytes.
#[derive(Clone, Copy, Drop)]
pub struct PlainMessage<'a>(pub &'a [u8]);

impl fmt::Display for PlainMessage<'_> {
    fn fmt<W: fmt::Write>(&self, f: &mut fmt::Formatter<W>) -> fmt::Result {
        let Some(function) = self.0.first() else {
            return f.write_str("a message without a function");
        };
        match function_name(*function) {
            Some(name) => write!(f, "{name}: {}", HexBytes(self.0)),
            None => write!(f, "function {function:02X}: {}", HexBytes(self.0)),
        }
    }
}

/// A number with its noun, which takes an s unless the number is 1.
#[derive(Clone, Copy, Drop)]
pub struct Count<'a>(pub u64, pub &'a str);

impl fmt::Display for Count<'_> {
    fn fmt<W: fmt::Write>(&self, f: &mut fmt::Formatter<W>) -> fmt::Result {
        let number = self.0;
        let noun = self.1;
        let ending = if number == 1 { "" } else { "s" };
        write!(f, "{number} {noun}{ending}")
    }
}

/// A scale by its four bytes, of which the first is the lowest of the number: the factor, such as `0.1`. Bytes that are no scale
/// are written as bytes, such as `bytes 00 00 00 40`.
#[derive(Clone, Copy, Drop)]
pub struct ShownScale(pub u32);

impl fmt::Display for ShownScale {
    fn fmt<W: fmt::Write>(&self, f: &mut fmt::Formatter<W>) -> fmt::Result {
        let bytes = self.0.to_le_bytes();
        match Scale::from_bytes(bytes) {
            Some(Scale::One) => f.write_str("1"),
            Some(Scale::Tenth) => f.write_str("0.1"),
            Some(Scale::Hundredth) => f.write_str("0.01"),
            Some(Scale::Thousandth) => f.write_str("0.001"),
            None => write!(f, "bytes {}", HexBytes(&bytes)),
        }
    }
}

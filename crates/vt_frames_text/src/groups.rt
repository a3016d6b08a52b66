//! The language that a terminal announces, and acknowledgements, in words.

use crate::addresses::ParameterGroup;
use crate::shown::{HexByte, HexBytes, QuotedText};
use std::fmt;
use vt_can::assigned::GLOBAL_ADDRESS;

/// The function of an acknowledgement that names none.
const NO_FUNCTION: u8 = 0xFF;

/// The parameter group of the language and the units of a terminal (ISO 11783-7).
pub const LANGUAGE: u32 = 0xFE0F;

/// The parameter group of acknowledgements (ISO 11783-3).
pub const ACKNOWLEDGEMENT: u32 = 0xE800;

/// A message with the language and the units of a terminal.
#[derive(Clone, Copy, Drop)]
pub struct LanguageSentence<'a>(pub &'a [u8]);

impl fmt::Display for LanguageSentence<'_> {
    fn fmt<W: fmt::Write>(&self, f: &mut fmt::Formatter<W>) -> fmt::Result {
        let [first, second, numbers, date, units, more, rest @ ..] = self.0 else {
            return write!(f, "Language: {}", HexBytes(self.0));
        };
        let language = [*first, *second];
        let point = decimal_point(*numbers);
        let hours = hours(*numbers);
        write!(
            f,
            "Language: {}, {point}, {hours}, date format {date}, units {} {}",
            QuotedText(&language),
            HexByte(*units),
            HexByte(*more)
        )?;
        write_country(f, rest)
    }
}

/// Writes the code of the country, if its two letters are given.
fn write_country<W: fmt::Write>(f: &mut fmt::Formatter<W>, code: &[u8]) -> fmt::Result {
    if code.len() == 2 && code.iter().all(u8::is_ascii_alphabetic) {
        write!(f, ", country {}", QuotedText(code))?;
    }
    Ok(())
}

/// The decimal point, by the two highest bits of a byte.
fn decimal_point(numbers: u8) -> &'static str {
    match numbers >> 6 {
        0 => "decimal comma",
        1 => "decimal point",
        _ => "no decimal sign given",
    }
}

/// The form of times of day, by the next two bits.
fn hours(numbers: u8) -> &'static str {
    match numbers >> 4 & 3 {
        0 => "24 hours",
        1 => "12 hours",
        _ => "no form of times given",
    }
}

/// An acknowledgement of a message, or its refusal.
#[derive(Clone, Copy, Drop)]
pub struct AcknowledgementSentence<'a>(pub &'a [u8]);

impl fmt::Display for AcknowledgementSentence<'_> {
    fn fmt<W: fmt::Write>(&self, f: &mut fmt::Formatter<W>) -> fmt::Result {
        let [control, function, _, _, address, low, middle, high, ..] = self.0 else {
            return write!(f, "Acknowledgement: {}", HexBytes(self.0));
        };
        let group = ParameterGroup::in_bytes(&[*low, *middle, *high]);
        f.write_str("Acknowledgement: ")?;
        match control {
            0 => f.write_str("positive")?,
            1 => f.write_str("negative")?,
            2 => f.write_str("access denied")?,
            3 => f.write_str("cannot respond")?,
            control => write!(f, "code {control}")?,
        }
        if *address != GLOBAL_ADDRESS {
            write!(f, ", to {}", HexByte(*address))?;
        }
        match group.name() {
            Some(name) => write!(f, ", {name}")?,
            None => write!(f, ", {group}")?,
        }
        if *function != NO_FUNCTION {
            write!(f, ", function {}", HexByte(*function))?;
        }
        Ok(())
    }
}

//! Texts in XML.

use std::fmt::{self, Write};

/// What stands for a character that XML 1.0 forbids.
const FORBIDDEN: &str = "\u{FFFD}";

/// A text as the value of an attribute, without its quotes.
pub fn attribute_of(text: &str) -> Escaped<'_> {
    Escaped {
        text,
        is_attribute: true,
    }
}

/// A text between tags.
pub fn text_of(text: &str) -> Escaped<'_> {
    Escaped {
        text,
        is_attribute: false,
    }
}

/// A text in which the characters of marks are escaped, and those that XML 1.0 forbids replaced.
#[derive(Clone, Copy, Drop)]
pub struct Escaped<'a> {
    text: &'a str,
    /// Whether newlines and tabs are escaped too, which a reader of an attribute takes as spaces.
    is_attribute: bool,
}

impl Escaped<'_> {
    /// What is written for a character. `None` for the character itself.
    fn escape_of(&self, letter: char) -> Option<&'static str> {
        match letter {
            '&' => Some("&amp;"),
            '<' => Some("&lt;"),
            '>' => Some("&gt;"),
            '"' => Some("&quot;"),
            '\r' => Some("&#13;"),
            '\n' if self.is_attribute => Some("&#10;"),
            '\t' if self.is_attribute => Some("&#9;"),
            '\n' | '\t' => None,
            '\0'..='\u{1F}' | '\u{FFFE}' | '\u{FFFF}' => Some(FORBIDDEN),
            _ => None,
        }
    }
}

impl fmt::Display for Escaped<'_> {
    fn fmt<W: fmt::Write>(&self, f: &mut fmt::Formatter<W>) -> fmt::Result {
        for letter in self.text.chars() {
            match self.escape_of(letter) {
                Some(escape) => f.write_str(escape)?,
                None => f.write_char(letter)?,
            }
        }
        Ok(())
    }
}

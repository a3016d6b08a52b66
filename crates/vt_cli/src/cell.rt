//! Members of lines of JSON.

ghost use Rattle.std.specs.Prelude.{◌≡◌, IfOk, string_bytes};
ghost use Rattle.serde_json.specs.View.{view};
ghost use Rattle.vt_cli.specs.Cells.{cell_data, hex_text};
ghost use Rattle.vt_cli.specs.Numbers.{number_or_null};

use serde_json::Value;
use std::alloc::{AllocError, Global};

/// The value of a member of a line of JSON.
#[derive(Clone, Copy)]
pub enum Cell<'a> {
    /// `null`, for a value that is missing.
    Null,
    /// A number.
    Number(u64),
    /// A text.
    Text(&'a str),
    /// A text of two hex digits, such as an address.
    Hex(u8),
}

impl<'a> Cell<'a> {
    /// A number, or `null` if there is none.
    pub fn number_if(value: Option<u64>) -> Cell<'a>
        ensures { cell_data result ≡ number_or_null value }
    {
        match value {
            Some(value) => Cell::Number(value),
            None => Cell::Null,
        }
    }

    /// A text, or `null` if there is none.
    pub fn text_if(text: Option<&'a str>) -> Cell<'a> {
        match text {
            Some(text) => Cell::Text(text),
            None => Cell::Null,
        }
    }

    /// The value for `serde_json`.
    pub(crate) fn value(&self, alloc: Global) -> Result<Value, AllocError>
        ensures { IfOk result (λ value. view value ≡ cell_data self.now) }
    {
        match self {
            Cell::Null => Ok(Value::Null),
            Cell::Number(number) => Ok(Value::from(*number)),
            Cell::Text(text) => Ok(Value::String(String::from_str(alloc, text)?)),
            Cell::Hex(byte) => Ok(Value::String(hex_text(alloc, *byte)?)),
        }
    }
}

/// The two hex digits of a byte.
fn hex_text(alloc: Global, byte: u8) -> Result<String, AllocError>
    ensures { IfOk result (λ text. string_bytes text ≡ hex_text byte) }
{
    format!(in alloc; "{byte:02X}")
}

//! HTML as it is written: markup of the program's own, and texts from outside, which are never markup.

ghost use Rattle.std.specs.Prelude.{◌≡◌, ◌++◌, [], OnOk};
ghost use Rattle.std.specs.List.{flat_map};
ghost use Rattle.draw_gallery.specs.Html.{html_escaped};

use std::alloc::{AllocError, Global};

/// The text of a page so far.
#[derive(Drop)]
pub(crate) struct Html {
    bytes: Vec<u8>,
}

impl Html {
    /// No text. Allocates nothing.
    pub(crate) fn new(alloc: Global) -> Html
        ensures { result.bytes.items ≡ [] }
    {
        Html {
            bytes: Vec::new(alloc),
        }
    }

    /// Appends markup of the program's own.
    pub(crate) fn push_markup(&mut self, markup: &'static str) -> Result<(), AllocError>
        ensures { OnOk result (self.new.bytes.items ≡ self.old.bytes.items ++ markup.now) }
    {
        self.bytes.extend_from_slice(markup.as_bytes())
    }

    /// Appends a text, for the space between tags or a value of an attribute in double quotes.
    pub(crate) fn push_text(&mut self, text: &str) -> Result<(), AllocError>
        ensures { OnOk result (self.new.bytes.items ≡ self.old.bytes.items ++ flat_map html_escaped text.now) }
    {
        push_escaped(&mut self.bytes, text.as_bytes())
    }

    /// The bytes of the page.
    pub(crate) fn as_bytes(&self) -> &[u8]
        ensures { result.now ≡ self.now.bytes.items }
    {
        self.bytes.as_slice()
    }
}

/// Appends the bytes of a text, with a reference for each that could be markup.
fn push_escaped(out: &mut Vec<u8>, text: &[u8]) -> Result<(), AllocError>
    ensures { OnOk result (out.new.items ≡ out.old.items ++ flat_map html_escaped text.now) }
{
    for byte in text {
        push_byte(out, *byte)?;
    }
    Ok(())
}

fn push_byte(out: &mut Vec<u8>, byte: u8) -> Result<(), AllocError>
    ensures { OnOk result (out.new.items ≡ out.old.items ++ html_escaped byte) }
{
    match byte {
        b'&' => out.extend_from_slice(b"&amp;"),
        b'<' => out.extend_from_slice(b"&lt;"),
        b'>' => out.extend_from_slice(b"&gt;"),
        b'"' => out.extend_from_slice(b"&quot;"),
        _ => {
            out.push(byte)?;
            Ok(())
        }
    }
}

//! Texts of at most 255 bytes.

ghost use Rattle.std.specs.Prelude.{◌≡◌, ◌≤◌, length, IfOk};
ghost use Rattle.vt_kinds.specs.Texts.{filled_up};

use std::alloc::{AllocError, Global};
use std::convert::AsSlice;
use std::marker::Model;

/// A text of at most 255 bytes, the most that a count of one byte can hold. `B` is its buffer: a slice of a pool,
/// or a vector in a store.
#[derive(Drop)]
pub struct ShortText<B: AsSlice<u8>> {
    bytes: B,
}

impl<B: AsSlice<u8>> Model for ShortText<B> {
    ghost use Rattle.std.specs.Prelude.{ℕ, List, ◌≤◌, length};

    ghost Value = { List ℕ };

    ghost view = { λ t. B.items t.bytes };

    ghost invariant = { λ t. length (B.items t.bytes) ≤ 255 };
}

impl<B: AsSlice<u8>> ShortText<B> {
    /// Makes a text of these bytes, at most 255.
    pub fn new(bytes: B) -> ShortText<B>
        requires { length (B.items bytes) ≤ 255 }
        ensures { result ≡ B.items bytes }
    {
        ShortText { bytes }
    }

    /// The bytes of the text.
    pub fn as_slice(&self) -> &[u8]
        ensures value { result.now ≡ self.now }
        ensures most { length result.now ≤ 255 }
    {
        self.bytes.as_slice()
    }

    /// Copies the text into new memory. `AllocError` if memory is refused.
    pub fn copied(&self, alloc: Global) -> Result<ShortText<Vec<u8>>, AllocError>
        ensures { IfOk result (λ copy. copy ≡ self.now) }
    {
        let bytes = Vec::from_slice(alloc, self.as_slice())?;
        Ok(ShortText { bytes })
    }
}

impl ShortText<Vec<u8>> {
    /// Overwrites the text and pads it with spaces to its old length.
    pub fn overwrite(&mut self, text: &[u8])
        requires { length text.now ≤ length self.old }
        ensures { self.new ≡ filled_up (length self.old) text.now }
    {
        let (front, rest) = self.bytes.split_at_mut(text.len());
        front.copy_from_slice(text);
        rest.fill(b' ');
    }
}

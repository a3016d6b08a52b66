//! The bytes of pictures.

ghost use Rattle.std.specs.Prelude.{◌≡◌, ◌≤◌, length, IfOk};

use std::alloc::{AllocError, Global};
use std::convert::AsSlice;
use std::marker::Model;

/// The bytes of a picture, at most 4,294,967,295, the most that a count of four bytes can hold. `B` is their buffer:
/// a slice of a pool, or a vector in a store.
#[derive(Drop)]
pub struct PictureBytes<B: AsSlice<u8>> {
    bytes: B,
}

impl<B: AsSlice<u8>> Model for PictureBytes<B> {
    ghost use Rattle.std.specs.Prelude.{ℕ, List, ◌≤◌, length};

    ghost Value = { List ℕ };

    ghost view = { λ t. B.items t.bytes };

    ghost invariant = { λ t. length (B.items t.bytes) ≤ 4294967295 };
}

impl<B: AsSlice<u8>> PictureBytes<B> {
    /// Makes a picture of these bytes, at most 4,294,967,295.
    pub fn new(bytes: B) -> PictureBytes<B>
        requires { length (B.items bytes) ≤ 4294967295 }
        ensures { result ≡ B.items bytes }
    {
        PictureBytes { bytes }
    }

    /// The bytes of the picture.
    pub fn as_slice(&self) -> &[u8]
        ensures value { result.now ≡ self.now }
        ensures most { length result.now ≤ 4294967295 }
    {
        self.bytes.as_slice()
    }

    /// Copies the picture into new memory. `AllocError` if memory is refused.
    pub fn copied(&self, alloc: Global) -> Result<PictureBytes<Vec<u8>>, AllocError>
        ensures { IfOk result (λ copy. copy ≡ self.now) }
    {
        let bytes = Vec::from_slice(alloc, self.as_slice())?;
        Ok(PictureBytes { bytes })
    }
}

//! The bytes of a macro, at most 65,535.

ghost use Rattle.std.specs.Prelude.{◌≡◌, ◌≤◌, length, IfOk};

use std::alloc::{AllocError, Global};
use std::convert::AsSlice;
use std::marker::Model;

/// The bytes of a macro, at most 65,535, the most that a count of two bytes can hold. `B` is their buffer: a slice
/// of a pool, or a vector in a store.
#[derive(Drop)]
pub struct MacroBytes<B: AsSlice<u8>> {
    bytes: B,
}

impl<B: AsSlice<u8>> Model for MacroBytes<B> {
    ghost use Rattle.std.specs.Prelude.{ℕ, List, ◌≤◌, length};

    ghost Value = { List ℕ };

    ghost view = { λ t. B.items t.bytes };

    ghost invariant = { λ t. length (B.items t.bytes) ≤ 65535 };
}

impl<B: AsSlice<u8>> MacroBytes<B> {
    /// Makes a macro of these bytes, at most 65,535.
    pub fn new(bytes: B) -> MacroBytes<B>
        requires { length (B.items bytes) ≤ 65535 }
        ensures { result ≡ B.items bytes }
    {
        MacroBytes { bytes }
    }

    /// The bytes of the macro.
    pub fn as_slice(&self) -> &[u8]
        ensures value { result.now ≡ self.now }
        ensures most { length result.now ≤ 65535 }
    {
        self.bytes.as_slice()
    }

    /// Copies the macro into new memory. `AllocError` if memory is refused.
    pub fn copied(&self, alloc: Global) -> Result<MacroBytes<Vec<u8>>, AllocError>
        ensures { IfOk result (λ copy. copy ≡ self.now) }
    {
        let bytes = Vec::from_slice(alloc, self.as_slice())?;
        Ok(MacroBytes { bytes })
    }
}

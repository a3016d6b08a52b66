//! Macros (ISO 11783-6).

ghost use Rattle.std.specs.Prelude.{◌≡◌, IfOk};
ghost use Rattle.vt_kinds.specs.Records.{seen_macro_object};

use crate::macro_bytes::MacroBytes;
use std::alloc::{AllocError, Global};
use std::convert::AsSlice;

/// A Macro, type 28: commands that an event runs.
#[derive(Drop)]
pub struct Macro<B: AsSlice<u8>> {
    /// The commands, in the order of their run.
    pub bytes: MacroBytes<B>,
}

impl<B: AsSlice<u8>> Macro<B> {
    /// Copies the object into memory of its own.
    pub(crate) fn copied(&self, alloc: Global) -> Result<Macro<Vec<u8>>, AllocError>
        ensures { IfOk result (λ copy. seen_macro_object copy ≡ seen_macro_object self.now) }
    {
        Ok(Macro {
            bytes: self.bytes.copied(alloc)?,
        })
    }
}

impl<B: AsSlice<u8> + Drop> Macro<B> {
    /// Takes the object over, with its bytes copied into memory of its own.
    pub(crate) fn into_owned(self, alloc: Global) -> Result<Macro<Vec<u8>>, AllocError>
        ensures { IfOk result (λ owned. seen_macro_object owned ≡ seen_macro_object self) }
    {
        let Macro { bytes } = self;
        Ok(Macro {
            bytes: bytes.copied(alloc)?,
        })
    }
}

//! Variables and pointers (ISO 11783-6).

ghost use Rattle.std.specs.Prelude.{◌≡◌, IfOk};
ghost use Rattle.vt_kinds.specs.Records.{seen_string_variable};

use crate::id::ObjectId;
use crate::long_text::LongText;
use std::alloc::{AllocError, Global};
use std::convert::AsSlice;

/// A Number Variable, type 21.
#[derive(Clone, Copy, PartialEq, Eq)]
pub struct NumberVariable {
    /// The value.
    pub value: u32,
}

/// A String Variable, type 22.
#[derive(Drop)]
pub struct StringVariable<B: AsSlice<u8>> {
    /// The text.
    pub text: LongText<B>,
}

impl<B: AsSlice<u8>> StringVariable<B> {
    /// Copies the object into memory of its own.
    pub(crate) fn copied(&self, alloc: Global) -> Result<StringVariable<Vec<u8>>, AllocError>
        ensures { IfOk result (λ copy. seen_string_variable copy ≡ seen_string_variable self.now) }
    {
        Ok(StringVariable {
            text: self.text.copied(alloc)?,
        })
    }
}

impl<B: AsSlice<u8> + Drop> StringVariable<B> {
    /// Takes the object over, with its bytes copied into memory of its own.
    pub(crate) fn into_owned(self, alloc: Global) -> Result<StringVariable<Vec<u8>>, AllocError>
        ensures { IfOk result (λ owned. seen_string_variable owned ≡ seen_string_variable self) }
    {
        let StringVariable { text } = self;
        Ok(StringVariable {
            text: text.copied(alloc)?,
        })
    }
}

/// An Object Pointer, type 27, which acts as the object that it refers to.
#[derive(Clone, Copy, PartialEq, Eq)]
pub struct ObjectPointer {
    /// The referenced object, or NULL.
    pub value: ObjectId,
}

//! The objects of a working set in words.

use check_text::{Label, Names};
use std::fmt;
use vt_machine::Live;
use vt_objects::{Kind, ObjectId, SortedStore};

/// The objects of the working set to which a message belongs, with their names.
#[derive(Clone, Copy, Drop)]
pub(crate) struct Objects<'a> {
    /// The pool of the set, or `None` if it has none.
    pub(crate) pool: Option<&'a Live<SortedStore>>,
    /// The names of objects.
    pub(crate) names: &'a Names,
}

impl<'a> Objects<'a> {
    /// The object of an ID in words.
    pub(crate) fn object(&self, id: ObjectId) -> ObjectText<'a> {
        ObjectText {
            label: Label {
                id,
                kind: self.kind(id),
                name: self.names.get(id),
            },
            none: "none",
        }
    }

    /// The object of an ID in words, with other words for NULL.
    pub(crate) fn object_or(&self, id: ObjectId, none: &'a str) -> ObjectText<'a> {
        let ObjectText { label, .. } = self.object(id);
        ObjectText { label, none }
    }

    /// The kind of an object, or `None` if it is missing.
    pub(crate) fn kind(&self, id: ObjectId) -> Option<Kind> {
        let object = self.pool?.get(id)?;
        Some(object.kind())
    }
}

/// An object by its kind, its ID and its name, such as ``Container 100 `boom` ``; `object 100` if it is missing.
#[derive(Clone, Copy, Drop)]
pub(crate) struct ObjectText<'a> {
    label: Label<'a>,
    /// The words for NULL.
    none: &'a str,
}

impl fmt::Display for ObjectText<'_> {
    fn fmt<W: fmt::Write>(&self, f: &mut fmt::Formatter<W>) -> fmt::Result {
        if self.label.id.is_null() {
            return f.write_str(self.none);
        }
        write!(f, "{}", self.label)
    }
}

/// The object ID in two bytes of a message.
pub(crate) fn id_of(low: u8, high: u8) -> ObjectId {
    ObjectId::from_raw(u16::from_le_bytes([low, high]))
}

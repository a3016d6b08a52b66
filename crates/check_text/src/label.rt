//! An object in words.

use std::fmt;
use vt_objects::{Kind, ObjectId};

/// An object by its kind, its ID and its name, such as ``Output Number 341 `tank_value` ``, or `object 104` if it is missing.
#[derive(Clone, Copy, Drop)]
pub struct Label<'a> {
    /// The ID.
    pub id: ObjectId,
    /// The kind, or `None` for a missing object.
    pub kind: Option<Kind>,
    /// The name, or `None` if no file of names has one.
    pub name: Option<&'a str>,
}

impl fmt::Display for Label<'_> {
    fn fmt<W: fmt::Write>(&self, f: &mut fmt::Formatter<W>) -> fmt::Result {
        match self.kind {
            Some(kind) => write!(f, "{kind} {}", self.id.raw())?,
            None => write!(f, "object {}", self.id.raw())?,
        }
        match self.name {
            Some(name) => write!(f, " `{name}`"),
            None => Ok(()),
        }
    }
}

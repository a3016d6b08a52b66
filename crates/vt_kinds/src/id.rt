//! The IDs of objects.

ghost use Rattle.std.specs.Prelude.{◌≡◌, ◌↔◌, IsTrue};
ghost use Rattle.vt_kinds.specs.Ids.{null_id};

use std::marker::Model;

/// The ID of an object, 0 to 65534, or NULL, 65535, which belongs to no object.
#[derive(Clone, Copy, Debug, Default, PartialEq, Eq, PartialOrd, Ord, Hash)]
pub struct ObjectId {
    raw: u16,
}

impl Model for ObjectId {
    ghost use Rattle.std.specs.Prelude.{ℕ};

    ghost Value = { ℕ };

    ghost view = { λ id. id.raw };

    ghost inverse = { λ n. record { raw = n } };
}

impl ObjectId {
    /// The ID of no object, 65535.
    pub const NULL: ObjectId = ObjectId { raw: 0xFFFF };

    /// The ID with this number; NULL for 65535.
    pub fn from_raw(raw: u16) -> ObjectId
        ensures { result ≡ raw }
    {
        ObjectId { raw }
    }

    /// The number of the ID, 65535 for NULL.
    pub fn raw(self) -> u16
        ensures { result ≡ self }
    {
        self.raw
    }

    /// Whether the ID is NULL, which belongs to no object.
    pub fn is_null(self) -> bool
        ensures { IsTrue result ↔ (self ≡ null_id) }
    {
        self.raw == ObjectId::NULL.raw
    }
}

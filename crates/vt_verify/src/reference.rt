//! References from an object to another.

ghost use Rattle.std.specs.Prelude.{◌≡◌};
ghost use Rattle.vt_stores.specs.Shapes.{shape_of};
ghost use Rattle.vt_verify.specs.References.{of_slot, is_there, fits, passes_both, passes, may_refer};
ghost use Rattle.vt_verify.specs.Targets.{of_target, macro_reference};

use crate::objects::kind_at;
use vt_objects::{Kind, Kinds, ObjectId, Slot, SortedStore, Target};

/// A reference: an ID in an object, and the kinds allowed for it.
#[derive(Clone, Copy, PartialEq, Eq)]
pub struct Reference {
    /// The object that has the reference.
    pub parent: ObjectId,
    /// The referenced ID, or NULL.
    pub id: ObjectId,
    /// Whether NULL is allowed.
    pub may_be_null: bool,
    /// The allowed kinds.
    pub kinds: Kinds,
}

/// A test of a reference.
#[derive(Clone, Copy, PartialEq, Eq)]
pub enum Test {
    /// The ID is that of an existing object, or NULL if NULL is allowed.
    IsThere,
    /// The object is of an allowed kind. NULL and missing objects pass.
    Fits,
    /// The reference passes both tests: `IsThere` and `Fits`.
    Stands,
}

impl Reference {
    /// The reference of a slot.
    pub fn of_slot(parent: ObjectId, slot: &Slot) -> Reference
        ensures { result ≡ of_slot parent slot.now }
    {
        Reference {
            parent,
            id: slot.id,
            may_be_null: slot.null,
            kinds: slot.kinds,
        }
    }

    /// The reference of a target of a macro's command.
    pub fn of_target(parent: ObjectId, target: Target) -> Reference
        ensures { result ≡ of_target parent target }
    {
        Reference {
            parent,
            id: target.id,
            may_be_null: target.may_be_null,
            kinds: target.kinds,
        }
    }

    /// The reference to a macro with an ID of at most 255.
    pub fn to_macro(parent: ObjectId, id: ObjectId) -> Reference
        ensures { result ≡ macro_reference parent id }
    {
        Reference {
            parent,
            id,
            may_be_null: false,
            kinds: Kinds::Macros,
        }
    }

    /// Whether the reference passes a test.
    pub fn passes(&self, test: Test, objects: &SortedStore) -> bool
        ensures { result ≡ passes test (shape_of objects.now) self.now }
    {
        match test {
            Test::IsThere => self.is_there(objects),
            Test::Fits => self.fits(objects),
            Test::Stands => self.passes_both(objects),
        }
    }

    fn is_there(&self, objects: &SortedStore) -> bool
        ensures { result ≡ is_there (shape_of objects.now) self.now }
    {
        if self.id.is_null() {
            return self.may_be_null;
        }
        kind_at(objects, self.id).is_some()
    }

    fn fits(&self, objects: &SortedStore) -> bool
        ensures { result ≡ fits (shape_of objects.now) self.now }
    {
        if self.id.is_null() {
            return true;
        }
        match kind_at(objects, self.id) {
            None => true,
            Some(kind) => may_refer(self.kinds, self.id, kind),
        }
    }

    fn passes_both(&self, objects: &SortedStore) -> bool
        ensures { result ≡ passes_both (shape_of objects.now) self.now }
    {
        if self.id.is_null() {
            self.may_be_null
        } else {
            match kind_at(objects, self.id) {
                None => false,
                Some(kind) => may_refer(self.kinds, self.id, kind),
            }
        }
    }
}

/// Whether a reference for these kinds may refer to an object of a kind. Macros with IDs above 255 are not allowed as
/// `Kinds::Macros`.
pub(crate) fn may_refer(kinds: Kinds, id: ObjectId, kind: Kind) -> bool
    ensures { result ≡ may_refer kinds id kind }
{
    match kinds {
        Kinds::Macros => kinds.contains(kind) && id.raw() <= 255,
        _ => kinds.contains(kind),
    }
}

//! Tests whether an ID is allowed as a reference of an object.

ghost use Rattle.std.specs.Prelude.{◌≡◌};
ghost use Rattle.vt_effects.specs.Changes as changes;

use vt_kinds::{Kind, Kinds, ObjectId, Place};

/// Whether an object exists and is of one of these kinds.
pub(crate) fn is_one_of(kinds: Kinds, kind_of_other: Option<Kind>) -> bool
    ensures { result ≡ changes.is_one_of kinds kind_of_other }
{
    match kind_of_other {
        None => false,
        Some(kind) => kinds.contains(kind),
    }
}

/// Whether an object of a kind may refer to `id` at `place`. `kind_of_other` is the kind of the object of `id`, or `None` if
/// missing.
pub(crate) fn may_refer(kind: Kind, place: Place, id: ObjectId, kind_of_other: Option<Kind>) -> bool
    ensures { result ≡ changes.may_refer kind place id kind_of_other }
{
    if id.is_null() {
        return place.allows_null();
    }
    is_one_of(place.kinds(kind), kind_of_other)
}

//! The held key and the selected input after an update of a pool (docs/PROFILE.md, "Updates of a pool").

ghost use Rattle.std.specs.Prelude.{◌≡◌};
ghost use Rattle.vt_machine.specs.SetStates.{is_kept, kept_key, kept_input};

use crate::live::HeldKey;
use vt_effects::kind_in;
use vt_objects::{ObjectId, Store};

pub(crate) fn kept_key<S: Store>(old: &S, new: &S, key: Option<HeldKey>) -> Option<HeldKey>
    ensures { result ≡ kept_key (S.contents old.now) (S.contents new.now) key }
{
    match key {
        Some(key) if is_kept(old, new, key.id) => Some(key),
        _ => None,
    }
}

pub(crate) fn kept_input<S: Store>(old: &S, new: &S, input: Option<ObjectId>) -> Option<ObjectId>
    ensures { result ≡ kept_input (S.contents old.now) (S.contents new.now) input }
{
    match input {
        Some(id) if is_kept(old, new, id) => Some(id),
        _ => None,
    }
}

/// Whether an object exists before and after, with the same kind.
fn is_kept<S: Store>(old: &S, new: &S, id: ObjectId) -> bool
    ensures { result ≡ is_kept (S.contents old.now) (S.contents new.now) id }
{
    match (kind_in(old, id), kind_in(new, id)) {
        (Some(before), Some(after)) => before == after,
        _ => false,
    }
}

//! Looks up the soft keys of a mask.

ghost use Rattle.std.specs.Prelude.{◌≡◌, None};
ghost use Rattle.std.specs.FinMap as finite;
ghost use Rattle.vt_kinds.specs.Ids.{null_id};
ghost use Rattle.vt_shown.specs.ShownElements as showing;

use vt_kinds::{Object, ObjectId};
use vt_stores::Store;

/// The soft key mask of a mask. NULL if `mask` is not a mask.
pub fn soft_key_mask<S: Store>(store: &S, mask: ObjectId) -> ObjectId
    ensures keys { result ≡ showing.soft_key_mask_of (finite.get (S.contents store.now) mask) }
    ensures named { finite.get (S.contents store.now) null_id ≡ None }
{
    match store.get(mask) {
        Some(Object::DataMask(mask)) => mask.soft_key_mask,
        Some(Object::AlarmMask(mask)) => mask.soft_key_mask,
        _ => ObjectId::NULL,
    }
}

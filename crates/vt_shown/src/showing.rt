//! The objects that IDs in lists resolve to, and the numbers that objects show.

ghost use Rattle.std.specs.Prelude.{◌≡◌, IfNone, IfSome, None, Some};
ghost use Rattle.std.specs.FinMap as finite;
ghost use Rattle.vt_kinds.specs.Records.{seen};
ghost use Rattle.vt_shown.specs.ShownElements as showing;

use vt_kinds::{Object, ObjectId};
use vt_stores::Store;

/// The object that an ID in a list resolves to, with that object's ID; a pointer resolves to its value. `None` if the object
/// is missing.
pub fn resolve<S: Store>(store: &S, id: ObjectId) -> Option<(ObjectId, &Object<Vec<u8>>)>
    ensures some { IfSome result (λ found. (showing.resolves_to (S.contents store.now) id ≡ Some found.0) × (finite.get (S.contents store.now) found.0 ≡ Some (seen found.1.now))) }
    ensures none { IfNone result (showing.resolves_to (S.contents store.now) id ≡ None) }
{
    match store.get(id) {
        None => None,
        Some(Object::ObjectPointer(pointer)) => {
            let value = pointer.value;
            store.get(value).map(|object| (value, object))
        }
        Some(object) => Some((id, object)),
    }
}

/// Whether an object is an element: neither a pointer nor a hidden container.
pub fn is_element(object: &Object<Vec<u8>>) -> bool
    ensures { result ≡ showing.is_element (Some (seen object.now)) }
{
    match object {
        Object::ObjectPointer(_) => false,
        Object::Container(o) => o.hidden == 0,
        _ => true,
    }
}

/// The number that an object shows: that of its variable, or its own number if `variable` is NULL. `None` if the variable is
/// missing, which cannot happen in a store in order.
pub fn number_shown<S: Store>(store: &S, variable: ObjectId, own: u32) -> Option<u32>
    ensures { result ≡ showing.number_shown (S.contents store.now) variable own }
{
    if variable.is_null() {
        return Some(own);
    }
    let Some(Object::NumberVariable(o)) = store.get(variable) else {
        return None;
    };
    Some(o.value)
}

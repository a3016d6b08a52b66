//! The texts that objects show: those of their variables, if they have any.

ghost use Rattle.std.specs.Prelude.{◌≡◌};
ghost use Rattle.std.specs.Option.{option_map};
ghost use Rattle.vt_layout.specs.Lines.{text_shown};

use vt_objects::{Object, ObjectId, Store};

/// The text that an object shows. `None` if its variable is missing, which cannot happen in a store in order.
pub(crate) fn text_shown<'a, S: Store>(
    store: &'a S,
    variable: ObjectId,
    own: &'a [u8],
) -> Option<&'a [u8]>
    ensures { option_map (λ text. text.now) result ≡ text_shown (S.contents store.now) variable own.now }
{
    if variable.is_null() {
        return Some(own);
    }
    let Some(Object::StringVariable(o)) = store.get(variable) else {
        return None;
    };
    Some(o.text.as_slice())
}

//! The pictures that the shapes of objects refer to.

ghost use Rattle.std.specs.Prelude.{◌≡◌};
ghost use Rattle.vt_kinds.specs.Records.{seen};
ghost use Rattle.draw_shapes.specs.UsedPictures.{pattern_used, used_picture};

use crate::pen::{NO_PEN, fill_of};
use draw_svg::Paint;
use vt_objects::{Object, ObjectId, Store};

/// The Picture to which the shapes of an object may refer: itself, or the pattern of its fill attributes, even if nothing is filled.
pub fn used_picture<S: Store>(store: &S, id: ObjectId, object: &Object<Vec<u8>>) -> Option<ObjectId>
    ensures { result ≡ used_picture (S.contents store.now) id (seen object.now) }
{
    match object {
        Object::Picture(_) => Some(id),
        Object::Rectangle(o) => pattern_used(store, o.fill),
        Object::Ellipse(o) => pattern_used(store, o.fill),
        Object::Polygon(o) => pattern_used(store, o.fill),
        _ => None,
    }
}

/// The pattern of fill attributes.
fn pattern_used<S: Store>(store: &S, attributes: ObjectId) -> Option<ObjectId>
    ensures { result ≡ pattern_used (S.contents store.now) attributes }
{
    match fill_of(store, attributes, NO_PEN) {
        Paint::Pattern(id) => Some(ObjectId::from_raw(id)),
        Paint::None | Paint::Colour(_) => None,
    }
}

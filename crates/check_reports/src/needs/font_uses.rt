//! Which texts and numbers need which size of a font.

use std::alloc::{AllocError, Global};
use vt_objects::{Kind, Object, ObjectId, Place, SortedStore, Store, slots};

/// A text or a number, and the font that it names.
#[derive(Clone, Copy, PartialEq, Eq)]
pub(crate) struct FontUse {
    pub(crate) text: ObjectId,
    pub(crate) font: ObjectId,
    /// The number of the font's size.
    pub(crate) size: u8,
}

/// The texts and numbers of a pool with their fonts, by rising ID.
pub(crate) fn font_uses(alloc: Global, objects: &SortedStore) -> Result<Vec<FontUse>, AllocError> {
    let mut uses = Vec::new(alloc);
    for (id, object) in objects.entries() {
        if let Some(font) = font_of(object)
            && let Some(Object::Font(found)) = objects.get(font)
        {
            uses.push(FontUse {
                text: *id,
                font,
                size: found.size,
            })?;
        }
    }
    Ok(uses)
}

/// The font in which an object shows a text or a number. An Input Boolean takes only the colour of its font.
fn font_of(object: &Object<Vec<u8>>) -> Option<ObjectId> {
    if object.kind() == Kind::InputBoolean {
        return None;
    }
    let mut references = slots(object);
    let slot = references.find(|slot| slot.place == Place::Font)?;
    Some(slot.id)
}

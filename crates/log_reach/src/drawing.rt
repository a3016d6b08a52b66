//! The objects that a mask draws, and its soft keys (docs/PROFILE.md, "The drawing").

use crate::drawn::Drawn;
use std::alloc::AllocError;
use vt_objects::{Child, InputList, Object, ObjectId, SortedStore, Store};
use vt_shown::{is_element, number_shown, resolve, soft_key_mask};
use vt_verify::TERMINAL_LIMITS;

/// The most members of a chain of objects, each of which includes the next.
const MOST_MEMBERS: u8 = TERMINAL_LIMITS.inclusions + 1;

/// Puts the elements that a mask and its soft keys show into the drawing, which has none before. Takes time that grows with the number of
/// their entries.
pub(crate) fn put_drawing(
    store: &SortedStore,
    mask: ObjectId,
    drawn: &mut Drawn,
) -> Result<(), AllocError> {
    let Some(object) = store.get(mask) else {
        return Ok(());
    };
    put_within(store, MOST_MEMBERS, object, drawn)?;
    if let Some(Object::SoftKeyMask(keys)) = store.get(soft_key_mask(store, mask)) {
        for key in keys.keys.as_slice() {
            put_element(store, MOST_MEMBERS, *key, drawn)?;
        }
    }
    Ok(())
}

/// Puts the element that an ID resolves to, and the elements within it, down to a depth that no chain has.
#[cycle(drawing)]
fn put_element(
    store: &SortedStore,
    depth: u8,
    id: ObjectId,
    drawn: &mut Drawn,
) -> Result<(), AllocError> {
    if depth == 0 {
        return Ok(());
    }
    match resolve(store, id) {
        Some((id, object)) if is_element(object) => {
            if is_new(store, id, drawn)? {
                put_within(store, depth - 1, object, drawn)?;
            }
            Ok(())
        }
        _ => Ok(()),
    }
}

/// Puts an element into the drawing. Returns whether the drawing did not have it.
fn is_new(store: &SortedStore, id: ObjectId, drawn: &mut Drawn) -> Result<bool, AllocError> {
    match store.place(id) {
        Some(index) => drawn.put(index, id),
        None => Ok(false),
    }
}

/// Puts the elements within an object.
#[cycle(drawing)]
fn put_within(
    store: &SortedStore,
    depth: u8,
    object: &Object<Vec<u8>>,
    drawn: &mut Drawn,
) -> Result<(), AllocError> {
    for child in children(object) {
        put_element(store, depth, child.id, drawn)?;
    }
    if let Object::InputList(list) = object {
        if let Some(item) = current_item(store, list) {
            put_element(store, depth, item, drawn)?;
        }
    }
    Ok(())
}

/// The children that an object draws.
fn children(object: &Object<Vec<u8>>) -> &[Child] {
    match object {
        Object::WorkingSet(o) => o.children.as_slice(),
        Object::DataMask(o) => o.children.as_slice(),
        Object::AlarmMask(o) => o.children.as_slice(),
        Object::Container(o) if o.hidden == 0 => o.children.as_slice(),
        Object::Key(o) => o.children.as_slice(),
        Object::Button(o) => o.children.as_slice(),
        Object::Container(_)
        | Object::SoftKeyMask(_)
        | Object::InputBoolean(_)
        | Object::InputString(_)
        | Object::InputNumber(_)
        | Object::InputList(_)
        | Object::OutputString(_)
        | Object::OutputNumber(_)
        | Object::Line(_)
        | Object::Rectangle(_)
        | Object::Ellipse(_)
        | Object::Polygon(_)
        | Object::Meter(_)
        | Object::LinearBar(_)
        | Object::ArchedBar(_)
        | Object::Picture(_)
        | Object::NumberVariable(_)
        | Object::StringVariable(_)
        | Object::Font(_)
        | Object::LineAttributes(_)
        | Object::FillAttributes(_)
        | Object::InputAttributes(_)
        | Object::ObjectPointer(_)
        | Object::Macro(_) => &[],
    }
}

/// The current item of an input list, if there is one.
fn current_item(store: &SortedStore, list: &InputList) -> Option<ObjectId> {
    let index = number_shown(store, list.variable, u32::from(list.value))?;
    list.items.as_slice().get(index as usize).copied()
}

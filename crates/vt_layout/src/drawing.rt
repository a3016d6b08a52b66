//! The walk through the elements of a mask, in the order of its drawing. Each element has one line, and a page holds
//! 2,000 lines, so that a walk ends soon, however many paths there are.

ghost use Rattle.std.specs.Prelude.{◌≡◌, ◌==◌, if◌then◌else◌, [], ◌+◌, ◌*◌, ℕ, None, Some, OnOk, map};
ghost use Rattle.std.specs.Option.{option_map, option_to_list};
ghost use Rattle.std.specs.FinMap as finite;
ghost use Rattle.vt_kinds.specs.declared.object.Object.TheVariants as objects;
ghost use Rattle.vt_kinds.specs.Ids.{null_id};
ghost use Rattle.vt_kinds.specs.Records.{seen};
ghost use Rattle.vt_shown.specs.ShownElements.{resolves_to, item_of, number_shown, keys_of};
ghost use Rattle.vt_layout.specs.Drawings.{element, entries_in, unmoved, origin};
ghost use Rattle.vt_layout.specs.PageTexts.{with_elements, IsNear};
ghost use Rattle.vt_layout.specs.Walks.{elements, with_drawn, each_from, drawing};

use crate::element::{Element, Position};
use crate::page::Page;
use std::alloc::AllocError;
use vt_chains::TERMINAL_LIMITS;
use vt_objects::{Child, Container, InputList, Object, ObjectId, Store};
use vt_shown::{is_element, number_shown, resolve, soft_key_mask};

/// The most inclusions in a chain.
const MOST_INCLUSIONS: u8 = TERMINAL_LIMITS.inclusions;

/// The upper left corner of a mask, or of a key.
const ORIGIN: Position = Position { x: 0, y: 0 };

/// Draws the elements of a mask, and then its soft keys.
pub(crate) fn draw_mask<S: Store>(
    store: &S,
    mask: ObjectId,
    page: &mut Page,
) -> Result<(), AllocError>
    ensures drawn { OnOk result (page.new ≡ with_elements (S.contents store.now) (drawing (S.contents store.now) mask) page.old) }
    ensures named { finite.get (S.contents store.now) null_id ≡ None }
{
    let Some(object) = store.get(mask) else {
        return Ok(());
    };
    draw_within(store, MOST_INCLUSIONS, object, ORIGIN, page)?;
    draw_soft_keys(store, soft_key_mask(store, mask), page)
}

/// Draws the keys of a soft key mask.
fn draw_soft_keys<S: Store>(store: &S, id: ObjectId, page: &mut Page) -> Result<(), AllocError>
    ensures { OnOk result (page.new ≡ with_elements (S.contents store.now) (elements 32 (S.contents store.now) (map unmoved (keys_of (finite.get (S.contents store.now) id))) origin) page.old) }
{
    match store.get(id) {
        Some(object) => draw_keys(store, keys_of(object), page),
        None => Ok(()),
    }
}

/// The keys of a soft key mask. Empty if the object is not a soft key mask.
fn keys_of(object: &Object<Vec<u8>>) -> &[ObjectId]
    ensures { result.now ≡ keys_of (Some (seen object.now)) }
{
    let Object::SoftKeyMask(o) = object else {
        return &[];
    };
    o.keys.as_slice()
}

/// Draws keys, each from its own upper left corner.
fn draw_keys<S: Store>(store: &S, keys: &[ObjectId], page: &mut Page) -> Result<(), AllocError>
    ensures { OnOk result (page.new ≡ with_elements (S.contents store.now) (elements 32 (S.contents store.now) (map unmoved keys.now) origin) page.old) }
{
    for (place, key) in keys.iter().enumerate() {
        draw_entry(store, MOST_INCLUSIONS - 1, place, *key, ORIGIN, page)?;
    }
    Ok(())
}

/// Draws the elements of entries from a position, with paths of at most `depth` indices.
#[cycle(drawing)]
fn draw_entries<S: Store>(
    store: &S,
    depth: u8,
    entries: &[Child],
    from: Position,
    page: &mut Page,
) -> Result<(), AllocError>
    requires { IsNear depth from }
    ensures { OnOk result (page.new ≡ with_elements (S.contents store.now) (elements depth (S.contents store.now) entries.now from) page.old) }
{
    if depth == 0 {
        return Ok(());
    }
    for (place, entry) in entries.iter().enumerate() {
        draw_entry(store, depth - 1, place, entry.id, from.shifted(entry), page)?;
    }
    Ok(())
}

/// Draws the element of an entry, from the position of the entry's list.
#[cycle(drawing)]
fn draw_entry<S: Store>(
    store: &S,
    depth: u8,
    place: usize,
    id: ObjectId,
    at: Position,
    page: &mut Page,
) -> Result<(), AllocError>
    requires { IsNear depth at }
    ensures { OnOk result (page.new ≡ with_elements (S.contents store.now) (with_drawn (elements depth (S.contents store.now)) (S.contents store.now) (element (S.contents store.now) place at (resolves_to (S.contents store.now) id))) page.old) }
{
    if page.is_full() {
        return Ok(());
    }
    match resolve(store, id) {
        Some(found) if is_element(found.1) => {
            let id = found.0;
            page.put(store, Element { place, id, at }, found.1)?;
            draw_within(store, depth, found.1, at, page)
        }
        _ => Ok(()),
    }
}

/// Draws the elements within an element.
#[cycle(drawing)]
fn draw_within<S: Store>(
    store: &S,
    depth: u8,
    object: &Object<Vec<u8>>,
    at: Position,
    page: &mut Page,
) -> Result<(), AllocError>
    requires { IsNear depth at }
    ensures { OnOk result (page.new ≡ with_elements (S.contents store.now) (elements depth (S.contents store.now) (entries_in (S.contents store.now) (Some (seen object.now))) at) page.old) }
{
    match object {
        Object::WorkingSet(o) => draw_entries(store, depth, o.children.as_slice(), at, page),
        Object::DataMask(o) => draw_entries(store, depth, o.children.as_slice(), at, page),
        Object::AlarmMask(o) => draw_entries(store, depth, o.children.as_slice(), at, page),
        Object::Container(o) => { draw_entries(store, depth, if_visible(o), at, page) }
        Object::Key(o) => draw_entries(store, depth, o.children.as_slice(), at, page),
        Object::Button(o) => draw_entries(store, depth, o.children.as_slice(), at, page),
        Object::InputList(o) => draw_item(store, depth, o, at, page),
        _ => Ok(()),
    }
}

/// The entries of a container. Empty if it is hidden.
fn if_visible(container: &Container) -> &[Child]
    ensures { result.now ≡ (if container.now.hidden == 0 then container.now.children else []) }
{
    if container.hidden == 0 {
        container.children.as_slice()
    } else {
        &[]
    }
}

/// Draws the current item of an input list, at the position of the list.
#[cycle(drawing)]
fn draw_item<S: Store>(
    store: &S,
    depth: u8,
    list: &InputList,
    at: Position,
    page: &mut Page,
) -> Result<(), AllocError>
    requires { IsNear depth at }
    ensures { OnOk result (page.new ≡ with_elements (S.contents store.now) (elements depth (S.contents store.now) (entries_in (S.contents store.now) (Some (objects.InputList list.now))) at) page.old) }
{
    match item(store, list) {
        Some(id) => draw_entries(store, depth, &[Child { id, x: 0, y: 0 }], at, page),
        None => Ok(()),
    }
}

/// The current item of an input list, if there is one.
fn item<S: Store>(store: &S, list: &InputList) -> Option<ObjectId>
    ensures { option_to_list result ≡ item_of list.now.items (number_shown (S.contents store.now) list.now.variable list.now.value) }
{
    let index = number_shown(store, list.variable, u32::from(list.value))?;
    list.items.as_slice().get(index as usize).copied()
}

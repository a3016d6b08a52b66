//! The walk through the elements of a mask, in the order of its drawing. A picture has at most 2,000 elements, so that a walk ends
//! soon, however many paths there are.

ghost use Rattle.std.specs.Prelude.{◌≡◌, ◌==◌, if◌then◌else◌, [], None, Some, OnOk};
ghost use Rattle.std.specs.Option.{option_to_list};
ghost use Rattle.std.specs.FinMap as finite;
ghost use Rattle.vt_kinds.specs.declared.object.Object.TheVariants as objects;
ghost use Rattle.vt_kinds.specs.Records.{seen};
ghost use Rattle.vt_shown.specs.ShownElements.{resolves_to, item_of, number_shown};
ghost use Rattle.vt_layout.specs.Drawings.{entries_in};
ghost use Rattle.draw_picture.specs.Marks.{led_to, marks, marked, Nothing};
ghost use Rattle.draw_picture.specs.Tags.{Walks};

use std::alloc::AllocError;
use vt_objects::{Child, Container, InputList, Object, ObjectId, Store};
use vt_shown::{is_element, number_shown, resolve};

/// A tag of an element, as a walk comes to it.
#[derive(Clone, Copy, PartialEq, Eq)]
pub(crate) enum Tag {
    /// The tag that opens an element: its own ID, and its position in the element around it.
    Open(Child),
    /// The tag that closes the element that was opened last, of those that are open.
    Close,
}

/// The tags so far, and the number of elements that still fit.
#[derive(Drop)]
pub(crate) struct Walk {
    pub(crate) tags: Vec<Tag>,
    pub(crate) left: u16,
}

/// Walks through the elements of entries, at most `depth` within each other.
#[cycle(walking)]
pub(crate) fn walk_entries<S: Store>(
    store: &S,
    depth: u8,
    entries: &[Child],
    walk: &mut Walk,
) -> Result<(), AllocError>
    ensures { OnOk result (Walks (marks depth (S.contents store.now) entries.now) walk.old walk.new) }
{
    if depth == 0 {
        return Ok(());
    }
    for entry in entries {
        walk_entry(store, depth - 1, entry, walk)?;
    }
    Ok(())
}

/// Walks through the element of an entry.
#[cycle(walking)]
fn walk_entry<S: Store>(
    store: &S,
    depth: u8,
    entry: &Child,
    walk: &mut Walk,
) -> Result<(), AllocError>
    ensures { OnOk result (Walks (marked (S.contents store.now) (marks depth (S.contents store.now)) entry.now (resolves_to (S.contents store.now) entry.now.id) Nothing) walk.old walk.new) }
{
    if walk.left == 0 {
        return Ok(());
    }
    let Some(found) = resolve(store, entry.id) else {
        return Ok(());
    };
    if !is_element(found.1) {
        return Ok(());
    }
    walk.left -= 1;
    walk.tags.push(Tag::Open(led_to(entry, found.0)))?;
    walk_within(store, depth, found.1, walk)?;
    walk.tags.push(Tag::Close)?;
    Ok(())
}

/// The object that an entry leads to, at the position of the entry.
fn led_to(entry: &Child, id: ObjectId) -> Child
    ensures { result ≡ led_to entry.now id }
{
    Child {
        id,
        x: entry.x,
        y: entry.y,
    }
}

/// Walks through the elements within an element.
#[cycle(walking)]
pub(crate) fn walk_within<S: Store>(
    store: &S,
    depth: u8,
    object: &Object<Vec<u8>>,
    walk: &mut Walk,
) -> Result<(), AllocError>
    ensures { OnOk result (Walks (marks depth (S.contents store.now) (entries_in (S.contents store.now) (Some (seen object.now)))) walk.old walk.new) }
{
    match object {
        Object::WorkingSet(o) => walk_entries(store, depth, o.children.as_slice(), walk),
        Object::DataMask(o) => walk_entries(store, depth, o.children.as_slice(), walk),
        Object::AlarmMask(o) => walk_entries(store, depth, o.children.as_slice(), walk),
        Object::Container(o) => walk_entries(store, depth, if_visible(o), walk),
        Object::Key(o) => walk_entries(store, depth, o.children.as_slice(), walk),
        Object::Button(o) => walk_entries(store, depth, o.children.as_slice(), walk),
        Object::InputList(o) => walk_item(store, depth, o, walk),
        _ => Ok(()),
    }
}

/// The entries of a container. Empty if it is hidden.
pub(crate) fn if_visible(container: &Container) -> &[Child]
    ensures { result.now ≡ (if container.now.hidden == 0 then container.now.children else []) }
{
    if container.hidden == 0 {
        container.children.as_slice()
    } else {
        &[]
    }
}

/// Walks through the current item of an input list, at the position of the list.
#[cycle(walking)]
fn walk_item<S: Store>(
    store: &S,
    depth: u8,
    list: &InputList,
    walk: &mut Walk,
) -> Result<(), AllocError>
    ensures { OnOk result (Walks (marks depth (S.contents store.now) (entries_in (S.contents store.now) (Some (objects.InputList list.now)))) walk.old walk.new) }
{
    match item(store, list) {
        Some(id) => walk_entries(store, depth, &[Child { id, x: 0, y: 0 }], walk),
        None => Ok(()),
    }
}

/// The current item of an input list, if there is one.
pub(crate) fn item<S: Store>(store: &S, list: &InputList) -> Option<ObjectId>
    ensures { option_to_list result ≡ item_of list.now.items (number_shown (S.contents store.now) list.now.variable list.now.value) }
{
    let index = number_shown(store, list.variable, u32::from(list.value))?;
    list.items.as_slice().get(index as usize).copied()
}

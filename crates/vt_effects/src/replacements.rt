//! Commands that change the object of a pointer or of a list item.

ghost use Rattle.std.specs.Prelude.{◌≡◌, Some};
ghost use Rattle.std.specs.Option.{option_map};
ghost use Rattle.std.specs.FinMap as finite;
ghost use Rattle.vt_kinds.specs.Records.{Seen, seen};
ghost use Rattle.vt_kinds.specs.declared.object.Object.TheVariants as objects;
ghost use Rattle.vt_effects.specs.Effects as effects;
ghost use Rattle.vt_effects.specs.Replacements as replacements;
ghost use Rattle.vt_effects.specs.Replacements.{item_at, replacement, restored};

use crate::numbers::id;
use vt_commands::Command;
use vt_kinds::{InputList, Object, ObjectId};
use vt_stores::Store;

/// The replacement of a pointer's value or of a list's item by a command.
#[derive(Clone, Copy, PartialEq, Eq)]
pub(crate) struct Replacement {
    /// The pointer or the list.
    pub(crate) holder: ObjectId,
    /// The ID before the command.
    pub(crate) before: ObjectId,
    /// The ID that the command writes.
    pub(crate) after: ObjectId,
}

/// The replacement that a command makes, if it makes one.
pub(crate) fn replaced<S: Store>(store: &S, command: &Command<'_>) -> Option<Replacement>
    ensures { result ≡ replacements.replacement_by (S.contents store.now) command.now }
{
    match *command {
        Command::ChangeNumericValue { id: holder, value }
        | Command::ChangeAttribute {
            id: holder,
            value,
            ..
        } => replaced_value(store, holder, id(value)),
        Command::ChangeListItem {
            id: holder,
            index,
            item,
        } => replaced_item(store, holder, index, item),
        _ => None,
    }
}

fn replaced_value<S: Store>(store: &S, holder: ObjectId, after: ObjectId) -> Option<Replacement>
    ensures { result ≡ option_map (replacement holder after) (effects.pointer_value (finite.get (S.contents store.now) holder)) }
{
    let before = pointer_value(store, holder)?;
    Some(Replacement {
        holder,
        before,
        after,
    })
}

fn replaced_item<S: Store>(
    store: &S,
    holder: ObjectId,
    index: u8,
    after: ObjectId,
) -> Option<Replacement>
    ensures { result ≡ option_map (replacement holder after) (item_at index (finite.get (S.contents store.now) holder)) }
{
    let before = item(store, holder, index)?;
    Some(Replacement {
        holder,
        before,
        after,
    })
}

/// The value of a pointer, or `None` if the object is no pointer.
pub(crate) fn pointer_value<S: Store>(store: &S, id: ObjectId) -> Option<ObjectId>
    ensures { result ≡ effects.pointer_value (finite.get (S.contents store.now) id) }
{
    let Some(Object::ObjectPointer(pointer)) = store.get(id) else {
        return None;
    };
    Some(pointer.value)
}

/// The item at an index of a list, or `None` if the object is no list or has no such item.
fn item<S: Store>(store: &S, id: ObjectId, index: u8) -> Option<ObjectId>
    ensures { result ≡ item_at index (finite.get (S.contents store.now) id) }
{
    let Some(Object::InputList(list)) = store.get(id) else {
        return None;
    };
    list.items.as_slice().get(usize::from(index)).copied()
}

/// Restores the ID that a command has replaced.
pub(crate) fn put_back<S: Store>(store: &mut S, command: &Command<'_>, replacement: &Replacement)
    ensures { (o : Seen) → finite.get (S.contents store.old) replacement.now.holder ≡ Some o → S.contents store.new ≡ finite.insert (S.contents store.old) replacement.now.holder (restored command.now replacement.now.before o) }
{
    match store.get_mut(replacement.holder) {
        Some(object) => restore(object, command, replacement.before),
        None => {}
    }
}

fn restore(object: &mut Object<Vec<u8>>, command: &Command<'_>, before: ObjectId)
    ensures { seen object.new ≡ restored command.now before (seen object.old) }
{
    match object {
        Object::InputList(list) => restore_item(list, command, before),
        Object::ObjectPointer(pointer) => pointer.value = before,
        _ => {}
    }
}

fn restore_item(list: &mut InputList, command: &Command<'_>, before: ObjectId)
    ensures { objects.InputList list.new ≡ restored command.now before (objects.InputList list.old) }
{
    if let Command::ChangeListItem { index, .. } = *command {
        if index < list.items.len() {
            list.items.set(index, before);
        }
    }
}

//! The effect of each command on a store.

ghost use Rattle.std.specs.Prelude.{◌≡◌};
ghost use Rattle.vt_stores.specs.Stores.{ObjectMap};
ghost use Rattle.vt_effects.specs.Changes.{HasResult, left};
ghost use Rattle.vt_effects.specs.Effects as effects;
ghost use Rattle.vt_effects.specs.Effects.{changed_by, changed_in};

use crate::changes::change;
use crate::error;
use vt_commands::Command;
use vt_kinds::{Kind, ObjectId};
use vt_stores::Store;

/// Executes a command on the objects of a store, except the extra checks for pointer values and list items. `kind_of_other` is
/// the kind of the command's other object, or `None` if that object is missing. A refusal is the error byte of the command's
/// reply, and changes nothing.
pub fn change_in<S: Store>(
    store: &mut S,
    command: &Command<'_>,
    kind_of_other: Option<Kind>,
) -> Result<(), u8>
    ensures result { HasResult result (changed_by (S.contents store.old) command.now kind_of_other) }
    ensures objects { S.contents store.new ≡ left (S.contents store.old) (changed_by (S.contents store.old) command.now kind_of_other) }
{
    match command.object() {
        None => without_object(command),
        Some(id) => change_object(store, id, command, kind_of_other),
    }
}

/// Tests a command without an object.
fn without_object(command: &Command<'_>) -> Result<(), u8>
    ensures { (store : ObjectMap) → HasResult result (effects.without_object store command.now) }
{
    if let Command::SetVolume { volume } = *command {
        if volume > 100 {
            return Err(error::OTHER);
        }
    }
    Ok(())
}

/// Changes the object of a command.
fn change_object<S: Store>(
    store: &mut S,
    id: ObjectId,
    command: &Command<'_>,
    kind_of_other: Option<Kind>,
) -> Result<(), u8>
    ensures result { HasResult result (changed_in (S.contents store.old) id command.now kind_of_other) }
    ensures objects { S.contents store.new ≡ left (S.contents store.old) (changed_in (S.contents store.old) id command.now kind_of_other) }
{
    match store.get_mut(id) {
        Some(object) => change(object, command, kind_of_other),
        None => Err(missing_error(command)),
    }
}

/// The error byte of a command whose object is missing.
fn missing_error(command: &Command<'_>) -> u8
    ensures { result ≡ effects.missing_error command.now }
{
    match command {
        Command::HideShow { .. }
        | Command::EnableDisable { .. }
        | Command::ChangeStringValue { .. } => error::OBJECT_ID,
        _ => error::OBJECT,
    }
}

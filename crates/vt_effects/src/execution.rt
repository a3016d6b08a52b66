//! Execution of an implement's commands on a store.

ghost use Rattle.std.specs.Prelude.{◌≡◌, ◌⊎◌, true, false, Some};
ghost use Rattle.vt_effects.specs.Changes.{HasResult};
ghost use Rattle.vt_effects.specs.Changes as changes;
ghost use Rattle.vt_effects.specs.Effects as effects;
ghost use Rattle.vt_effects.specs.Effects.{effect, after};
ghost use Rattle.vt_chains.specs.Certificates.{AreLevels, AreLevelsBut, HasLongChain, HasSameLevels};
ghost use Rattle.vt_effects.specs.Replacements as replacements;
ghost use Rattle.vt_effects.specs.Soundness.{IsSound};

use crate::effects::change_in;
use crate::error;
use crate::numbers::id;
use crate::pointers::places_allow;
use crate::references::is_one_of;
use crate::replacements::{Replacement, pointer_value, put_back, replaced};
use vt_chains::Levels;
use vt_commands::Command;
use vt_kinds::{Kind, Kinds, ObjectId};
use vt_stores::Store;

/// Executes a command on the objects of a store. A refusal is the error byte of the command's reply, with the bit of the
/// first test that fails, and changes nothing (docs/PROFILE.md, "Commands: all rows").
pub fn execute<S: Store>(
    store: &mut S,
    levels: &mut Levels,
    command: &Command<'_>,
) -> Result<(), u8>
    requires levels { AreLevels (S.contents store.old) levels.old }
    requires sound { IsSound (S.contents store.old) }
    ensures result { HasResult result (effect (S.contents store.old) command.now) }
    ensures objects { S.contents store.new ≡ after (S.contents store.old) command.now }
    ensures levels { AreLevels (S.contents store.new) levels.new }
{
    let kind_of_other = other_kind(store, other_id(command));
    match replaced(store, command) {
        None => change_in(store, command, kind_of_other),
        Some(replacement) => replace(store, levels, command, kind_of_other, &replacement),
    }
}

/// Does a command that replaces an ID. Changes the object first, and restores the ID if the new one breaks the order of
/// the store.
fn replace<S: Store>(
    store: &mut S,
    levels: &mut Levels,
    command: &Command<'_>,
    kind_of_other: Option<Kind>,
    replacement: &Replacement,
) -> Result<(), u8>
    requires levels { AreLevels (S.contents store.old) levels.old }
    requires sound { IsSound (S.contents store.old) }
    requires kind_of_other { kind_of_other ≡ effects.other_kind (S.contents store.old) (changes.other_id command.now) }
    requires replaces { replacements.replacement_by (S.contents store.old) command.now ≡ Some replacement.now }
    ensures result { HasResult result (effect (S.contents store.old) command.now) }
    ensures objects { S.contents store.new ≡ after (S.contents store.old) command.now }
    ensures levels { AreLevels (S.contents store.new) levels.new }
{
    let fits = fits(store, command);
    match change_in(store, command, kind_of_other) {
        Err(error) => Err(error),
        Ok(()) => {
            if is_in_order(store, levels, replacement, fits) {
                return Ok(());
            }
            put_back(store, command, replacement);
            Err(value_error(command))
        }
    }
}

/// Whether the new ID fits and no chain becomes too long with it.
fn is_in_order<S: Store>(
    store: &S,
    levels: &mut Levels,
    replacement: &Replacement,
    fits: bool,
) -> bool
    requires { AreLevelsBut (S.contents store.now) levels.old replacement.now.holder replacement.now.after }
    ensures fits { result ≡ true → fits ≡ true }
    ensures levels { result ≡ true → AreLevels (S.contents store.now) levels.new }
    ensures refused { result ≡ false → (fits ≡ false) ⊎ HasLongChain (S.contents store.now) }
    ensures kept { result ≡ false → HasSameLevels levels.old levels.new }
{
    if !fits {
        return false;
    }
    levels.take_up(store, replacement.holder, replacement.after)
}

/// Whether a command's new ID fits: a pointer's value in all references to the pointer, and a pointer item's value in the
/// list.
fn fits<S: Store>(store: &S, command: &Command<'_>) -> bool
    requires { IsSound (S.contents store.now) }
    ensures { result ≡ replacements.new_id_fits (S.contents store.now) command.now }
{
    match *command {
        Command::ChangeNumericValue { id: pointer, value } => {
            places_allow(store, pointer, id(value))
        }
        Command::ChangeAttribute {
            id: pointer,
            value,
            ..
        } => places_allow(store, pointer, id(value)),
        Command::ChangeListItem { item, .. } => value_drawn(store, pointer_value(store, item)),
        _ => true,
    }
}

/// Whether a pointer's value may be drawn as an item; true if the item is not a pointer.
fn value_drawn<S: Store>(store: &S, value: Option<ObjectId>) -> bool
    ensures { result ≡ effects.value_drawn (S.contents store.now) value }
{
    match value {
        None => true,
        Some(value) => value.is_null() || is_one_of(Kinds::Drawn, kind_in(store, value)),
    }
}

/// The kind of an object, or `None` if it is missing.
pub fn kind_in<S: Store>(store: &S, id: ObjectId) -> Option<Kind>
    ensures { result ≡ effects.kind_in (S.contents store.now) id }
{
    match store.get(id) {
        Some(object) => Some(object.kind()),
        None => None,
    }
}

fn other_kind<S: Store>(store: &S, other: Option<ObjectId>) -> Option<Kind>
    ensures { result ≡ effects.other_kind (S.contents store.now) other }
{
    match other {
        Some(id) => kind_in(store, id),
        None => None,
    }
}

/// The other ID of a command. For a value, the two lowest bytes.
fn other_id(command: &Command<'_>) -> Option<ObjectId>
    ensures { result ≡ changes.other_id command.now }
{
    match *command {
        Command::ChangeChildLocation { child, .. } => Some(child),
        Command::ChangeChildPosition { child, .. } => Some(child),
        Command::ChangeNumericValue { value, .. } => Some(id(value)),
        Command::ChangeFillAttributes { pattern, .. } => Some(pattern),
        Command::ChangeActiveMask { mask, .. } => Some(mask),
        Command::ChangeSoftKeyMask { keys, .. } => Some(keys),
        Command::ChangeAttribute { value, .. } => Some(id(value)),
        Command::ChangeListItem { item, .. } => Some(item),
        _ => None,
    }
}

/// The error byte for an ID that breaks the order of the store.
fn value_error(command: &Command<'_>) -> u8
    ensures { result ≡ effects.value_error command.now }
{
    if let Command::ChangeNumericValue { .. } = command {
        return error::VALUE;
    }
    error::ITEM
}

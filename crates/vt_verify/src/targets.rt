//! The references of the commands of macros and of macro entries.

ghost use Rattle.std.specs.Prelude.{◌≡◌, map, None, Some, IfSome, IsTrue, is_some};
ghost use Rattle.std.specs.Option.{option_to_list};
ghost use Rattle.std.specs.List.{flat_map};
ghost use Rattle.vt_commands.specs.Pieces.{cut};
ghost use Rattle.vt_kinds.specs.Records.{seen};
ghost use Rattle.vt_commands.specs.Targets.{object_of};
ghost use Rattle.vt_verify.specs.Lists.{first_failing};
ghost use Rattle.vt_stores.specs.Shapes.{shape_of, kind_at, fixed};
ghost use Rattle.vt_verify.specs.References.{passes};
ghost use Rattle.vt_verify.specs.Macros.{macro_bytes_in, macro_command, commands_of};
ghost use Rattle.vt_verify.specs.Targets.{of_target, kind_for, target_references, command_has_attribute, entry_references, own_references, macro_references};
ghost use Rattle.vt_verify.specs.Rules as rules;

use crate::commands::{macro_command, named_macro};
use crate::objects::kind_at;
use crate::reference::{Reference, Test};
use vt_objects::laws::cut_is_one;
use vt_objects::{
    Command, Event, Kind, MacroEntry, Object, ObjectId, SortedStore, Target, attribute,
    split_command, targets,
};

/// The first reference of an entry or a command, by rising ID, that fails a test.
pub(crate) fn failing_target(objects: &SortedStore, test: Test) -> Option<Reference>
    requires { rules.cut_short (shape_of objects.now) ≡ None }
    ensures { result ≡ first_failing (passes test (shape_of objects.now)) (macro_references (shape_of objects.now)) }
{
    for (id, object) in objects.entries() {
        if let Some(reference) = failing_of(objects, *id, object, test) {
            return Some(reference);
        }
    }
    None
}

fn failing_of(
    objects: &SortedStore,
    id: ObjectId,
    object: &Object<Vec<u8>>,
    test: Test,
) -> Option<Reference>
    requires { IfSome (macro_bytes_in id (fixed (seen object.now))) (λ bytes. IsTrue (is_some (cut bytes))) }
    ensures { result ≡ first_failing (passes test (shape_of objects.now)) (own_references (shape_of objects.now) (id, fixed (seen object.now))) }
{
    match failing_entry(objects, id, object.macros(), test) {
        Some(reference) => Some(reference),
        None => failing_command(objects, id, named_macro(id, object)?, test),
    }
}

/// The first macro entry that fails a test. Entries for events that cannot be listed are skipped.
fn failing_entry(
    objects: &SortedStore,
    id: ObjectId,
    entries: &[MacroEntry],
    test: Test,
) -> Option<Reference>
    ensures { result ≡ first_failing (passes test (shape_of objects.now)) (entry_references id entries.now) }
{
    for entry in entries {
        if Event::is_listable(entry.event) {
            let named = ObjectId::from_raw(u16::from(entry.macro_id));
            let reference = Reference::to_macro(id, named);
            if !reference.passes(test, objects) {
                return Some(reference);
            }
        }
    }
    None
}

fn failing_command(
    objects: &SortedStore,
    id: ObjectId,
    bytes: &[u8],
    test: Test,
) -> Option<Reference>
    requires { IsTrue (is_some (cut bytes.now)) }
    ensures { result ≡ first_failing (passes test (shape_of objects.now)) (flat_map (target_references (shape_of objects.now) id) (commands_of bytes.now)) }
{
    // The remaining bytes are cut into the same commands as in the whole.
    cut_is_one();
    let mut rest = bytes;
    while let Some((piece, next)) = split_command(rest) {
        if let Some(reference) = failing_in(objects, id, piece, test) {
            return Some(reference);
        }
        rest = next;
    }
    None
}

/// The first target of one macro command that fails a test.
fn failing_in(objects: &SortedStore, id: ObjectId, piece: &[u8], test: Test) -> Option<Reference>
    ensures { result ≡ first_failing (passes test (shape_of objects.now)) (flat_map (target_references (shape_of objects.now) id) (option_to_list (macro_command piece.now))) }
{
    let command = macro_command(piece)?;
    let (first, second) = targets(&command, kind_for(objects, &command));
    match failing(objects, id, first, test) {
        Some(reference) => Some(reference),
        None => failing(objects, id, second, test),
    }
}

/// The kind of the object of a command, or `None` if it is missing.
pub fn kind_for(objects: &SortedStore, command: &Command<'_>) -> Option<Kind>
    ensures { result ≡ kind_for (shape_of objects.now) (object_of command.now) }
{
    kind_at(objects, command.object()?)
}

/// The reference to a target, if there is a target and it fails a test.
fn failing(
    objects: &SortedStore,
    id: ObjectId,
    target: Option<Target>,
    test: Test,
) -> Option<Reference>
    ensures { result ≡ first_failing (passes test (shape_of objects.now)) (map (of_target id) (option_to_list target)) }
{
    let reference = Reference::of_target(id, target?);
    if reference.passes(test, objects) {
        return None;
    }
    Some(reference)
}

/// Whether the object of a Change Attribute has that attribute; true for other commands.
pub fn has_attribute(objects: &SortedStore, command: &Command<'_>) -> bool
    ensures { result ≡ command_has_attribute (shape_of objects.now) (Some command.now) }
{
    let Command::ChangeAttribute { id, number, .. } = *command else {
        return true;
    };
    match kind_at(objects, id) {
        None => true,
        Some(kind) => attribute(kind, number).is_some(),
    }
}

//! Rules 8 and 9: the references of macro entries and of the commands of macros.

ghost use Rattle.std.specs.Prelude.{◌≡◌, [], ◌∷◌, ◌++◌, map, IfOk, OnOk, IsTrue, is_some};
ghost use Rattle.std.specs.Option.{option_to_list};
ghost use Rattle.std.specs.List.{flat_map};
ghost use Rattle.vt_kinds.specs.Records.{seen};
ghost use Rattle.vt_commands.specs.Pieces.{cut};
ghost use Rattle.vt_stores.specs.Shapes.{shape_of, fixed};
ghost use Rattle.vt_verify.specs.Macros.{pieces_of};
ghost use Rattle.vt_verify.specs.Targets.{of_target};
ghost use Rattle.check_inspect.specs.Lists.{all_failing};
ghost use Rattle.check_inspect.specs.References.{at_spot, passes_at, entries_at, targets_at, own_references_at, failing_targets_at, function_of};

use crate::finding::{ReferenceAt, Spot};
use crate::macros::{function_of, whole_macro};
use crate::references::put_failing;
use std::alloc::{AllocError, Global};
use vt_objects::laws::cut_is_one;
use vt_objects::{
    Event, MacroEntry, Object, ObjectId, SortedStore, Target, split_command, targets,
};
use vt_verify::{Reference, Test, kind_for, macro_command};

/// The references of macro entries and of commands, by rising ID, that fail a test.
pub(crate) fn failing_targets(
    alloc: Global,
    objects: &SortedStore,
    test: Test,
) -> Result<Vec<ReferenceAt>, AllocError>
    ensures { IfOk result (λ found. found.items ≡ failing_targets_at test (shape_of objects.now)) }
{
    let mut found = Vec::new(alloc);
    for (id, object) in objects.entries() {
        put_own(objects, *id, object, test, &mut found)?;
    }
    Ok(found)
}

/// Appends the entries of an object, and then the commands of a macro, that fail a test.
fn put_own(
    objects: &SortedStore,
    id: ObjectId,
    object: &Object<Vec<u8>>,
    test: Test,
    found: &mut Vec<ReferenceAt>,
) -> Result<(), AllocError>
    ensures { OnOk result (found.new.items ≡ found.old.items ++ all_failing (passes_at test (shape_of objects.now)) (own_references_at (shape_of objects.now) (id, fixed (seen object.now)))) }
{
    put_entries(objects, id, object.macros(), test, found)?;
    match whole_macro(id, object) {
        Some(bytes) => put_commands(objects, id, bytes, test, found),
        None => Ok(()),
    }
}

/// Appends the macro entries that fail a test. Entries for events that cannot be listed are skipped.
fn put_entries(
    objects: &SortedStore,
    id: ObjectId,
    entries: &[MacroEntry],
    test: Test,
    found: &mut Vec<ReferenceAt>,
) -> Result<(), AllocError>
    ensures { OnOk result (found.new.items ≡ found.old.items ++ all_failing (passes_at test (shape_of objects.now)) (entries_at id 0 entries.now)) }
{
    for (index, entry) in entries.iter().enumerate() {
        if Event::is_listable(entry.event) {
            let named = ObjectId::from_raw(u16::from(entry.macro_id));
            let spot = Spot::Entry {
                index,
                event: entry.event,
            };
            put_failing(objects, Reference::to_macro(id, named), spot, test, found)?;
        }
    }
    Ok(())
}

/// Appends the commands of a macro that fail a test.
fn put_commands(
    objects: &SortedStore,
    id: ObjectId,
    bytes: &[u8],
    test: Test,
    found: &mut Vec<ReferenceAt>,
) -> Result<(), AllocError>
    requires { IsTrue (is_some (cut bytes.now)) }
    ensures { OnOk result (found.new.items ≡ found.old.items ++ all_failing (passes_at test (shape_of objects.now)) (flat_map (targets_at (shape_of objects.now)) (pieces_of (id, bytes.now)))) }
{
    // The remaining bytes are cut into the same commands as in the whole.
    cut_is_one();
    let mut rest = bytes;
    while let Some((piece, next)) = split_command(rest) {
        put_piece(objects, id, bytes.len() - rest.len(), piece, test, found)?;
        rest = next;
    }
    Ok(())
}

/// Appends the targets of one macro command that fail a test.
fn put_piece(
    objects: &SortedStore,
    id: ObjectId,
    at: usize,
    piece: &[u8],
    test: Test,
    found: &mut Vec<ReferenceAt>,
) -> Result<(), AllocError>
    ensures { OnOk result (found.new.items ≡ found.old.items ++ all_failing (passes_at test (shape_of objects.now)) (targets_at (shape_of objects.now) (record { id = id; at = at; bytes = piece.now }))) }
{
    let Some(command) = macro_command(piece) else {
        return Ok(());
    };
    let (first, second) = targets(&command, kind_for(objects, &command));
    put_target(objects, id, first, command_spot(at, piece), test, found)?;
    put_target(objects, id, second, command_spot(at, piece), test, found)
}

fn command_spot(at: usize, piece: &[u8]) -> Spot
    ensures { result ≡ Spot.Command at (function_of piece.now) }
{
    Spot::Command {
        at,
        function: function_of(piece),
    }
}

fn put_target(
    objects: &SortedStore,
    id: ObjectId,
    target: Option<Target>,
    spot: Spot,
    test: Test,
    found: &mut Vec<ReferenceAt>,
) -> Result<(), AllocError>
    ensures { OnOk result (found.new.items ≡ found.old.items ++ all_failing (passes_at test (shape_of objects.now)) (map (λ t. at_spot spot (of_target id t)) (option_to_list target))) }
{
    match target {
        Some(target) => put_failing(objects, Reference::of_target(id, target), spot, test, found),
        None => Ok(()),
    }
}

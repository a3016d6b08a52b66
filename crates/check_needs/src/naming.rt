//! The IDs that the objects of a pool name.

ghost use Rattle.std.specs.Prelude.{◌≡◌, ◌++◌, ℕ, map, IfOk, IsTrue, is_some};
ghost use Rattle.std.specs.List.{flat_map};
ghost use Rattle.std.specs.Option.{option_to_list, option_map};
ghost use Rattle.vt_commands.specs.Pieces.{cut};
ghost use Rattle.vt_kinds.specs.Records.{seen};
ghost use Rattle.vt_stores.specs.Shapes.{shape_of, fixed};
ghost use Rattle.vt_verify.specs.Macros.{macro_bytes_in, macro_command, commands_of};
ghost use Rattle.vt_verify.specs.Targets.{entry_references, target_references, command_references};
ghost use Rattle.check_needs.specs.Naming.{has, has_with, is_among, names, slot_ids, ids_named, macro_ids};

use crate::id_set::IdSet;
use std::alloc::{AllocError, Global};
use vt_objects::laws::cut_is_one;
use vt_objects::{
    Event, MacroEntry, Object, ObjectId, SortedStore, Target, slots, split_command, targets,
};
use vt_verify::{is_whole, kind_for, macro_command, named_macro};

/// The IDs that the objects name.
pub(crate) fn named(alloc: Global, objects: &SortedStore) -> Result<IdSet, AllocError>
    ensures { IfOk result (λ set. (id : ℕ) → has set id ≡ is_among id (names objects.now)) }
{
    let mut set = IdSet::new(alloc)?;
    for (id, object) in objects.entries() {
        put_named(objects, *id, object, &mut set);
    }
    Ok(set)
}

/// Inserts the IDs that an object names.
fn put_named(objects: &SortedStore, id: ObjectId, object: &Object<Vec<u8>>, set: &mut IdSet)
    ensures { (other : ℕ) → has set.new other ≡ has_with set.old (ids_named (shape_of objects.now) (id, seen object.now)) other }
{
    put_slots(object, set);
    put_entries(object.macros(), set);
    put_commands(objects, id, object, set);
}

/// Inserts the IDs in the slots of an object.
fn put_slots(object: &Object<Vec<u8>>, set: &mut IdSet)
    ensures { (id : ℕ) → has set.new id ≡ has_with set.old (slot_ids (seen object.now)) id }
{
    for slot in slots(object) {
        set.insert(slot.id);
    }
}

/// Inserts the macros of entries for events that can be listed.
fn put_entries(entries: &[MacroEntry], set: &mut IdSet)
    ensures { (parent id : ℕ) → has set.new id ≡ has_with set.old (map (λ r. r.id) (entry_references parent entries.now)) id }
{
    for entry in entries {
        if Event::is_listable(entry.event) {
            set.insert(ObjectId::from_raw(u16::from(entry.macro_id)));
        }
    }
}

/// Inserts the IDs in the commands of a macro with an ID of at most 255. A macro whose bytes end inside a command names nothing.
fn put_commands(objects: &SortedStore, id: ObjectId, object: &Object<Vec<u8>>, set: &mut IdSet)
    ensures { (other : ℕ) → has set.new other ≡ has_with set.old (map (λ r. r.id) (command_references (shape_of objects.now) id (fixed (seen object.now)))) other }
{
    match named_macro(id, object) {
        Some(bytes) if is_whole(bytes) => put_pieces(objects, bytes, set),
        _ => {}
    }
}

/// Inserts the IDs in the commands of whole bytes.
fn put_pieces(objects: &SortedStore, bytes: &[u8], set: &mut IdSet)
    requires { IsTrue (is_some (cut bytes.now)) }
    ensures { (parent other : ℕ) → has set.new other ≡ has_with set.old (map (λ r. r.id) (flat_map (target_references (shape_of objects.now) parent) (commands_of bytes.now))) other }
{
    // The remaining bytes are cut into the same commands as in the whole.
    cut_is_one();
    let mut rest = bytes;
    while let Some((piece, next)) = split_command(rest) {
        put_piece(objects, piece, set);
        rest = next;
    }
}

/// Inserts the IDs in one macro command.
fn put_piece(objects: &SortedStore, piece: &[u8], set: &mut IdSet)
    ensures { (parent other : ℕ) → has set.new other ≡ has_with set.old (map (λ r. r.id) (flat_map (target_references (shape_of objects.now) parent) (option_to_list (macro_command piece.now)))) other }
{
    if let Some(command) = macro_command(piece) {
        let (first, second) = targets(&command, kind_for(objects, &command));
        put_target(first, set);
        put_target(second, set);
    }
}

/// Inserts the ID of a target, if there is one.
fn put_target(target: Option<Target>, set: &mut IdSet)
    ensures { (other : ℕ) → has set.new other ≡ has_with set.old (map (λ t. t.id) (option_to_list target)) other }
{
    if let Some(target) = target {
        set.insert(target.id);
    }
}

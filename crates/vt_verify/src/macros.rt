//! Tests of the bytes of macros.

ghost use Rattle.std.specs.Prelude.{◌≡◌, ◌-◌, length, None, IfSome, IsTrue, is_some};
ghost use Rattle.std.specs.Option.{option_map};
ghost use Rattle.vt_commands.specs.Pieces.{cut};
ghost use Rattle.vt_verify.specs.Lists.{first_failing};
ghost use Rattle.std.specs.List.{flat_map};
ghost use Rattle.vt_kinds.specs.Records.{seen};
ghost use Rattle.vt_stores.specs.Shapes.{shape_of, fixed};
ghost use Rattle.vt_verify.specs.Macros.{macro_bytes_in, named_macro, is_whole, pieces, pieces_of};
ghost use Rattle.vt_verify.specs.Targets.{piece_passes};
ghost use Rattle.vt_verify.specs.Rules as rules;

use crate::commands::{macro_command, named_macro};
use crate::targets::has_attribute;
use vt_objects::laws::cut_is_one;
use vt_objects::{Object, ObjectId, SortedStore, split_command};

/// The first macro, by rising ID, whose bytes end inside a command.
pub fn cut_short(objects: &SortedStore) -> Option<ObjectId>
    ensures { result ≡ option_map (λ m. m.0) (rules.cut_short (shape_of objects.now)) }
{
    for (id, object) in objects.entries() {
        if let Some(id) = cut_short_in(*id, object) {
            return Some(id);
        }
    }
    None
}

fn cut_short_in(id: ObjectId, object: &Object<Vec<u8>>) -> Option<ObjectId>
    ensures { result ≡ option_map (λ m. m.0) (first_failing is_whole (named_macro (id, fixed (seen object.now)))) }
{
    match named_macro(id, object) {
        Some(bytes) if !is_whole(bytes) => Some(id),
        _ => None,
    }
}

/// Whether a macro's bytes end with a whole command.
pub fn is_whole(bytes: &[u8]) -> bool
    ensures { result ≡ is_some (cut bytes.now) }
{
    // The remaining bytes are cut into the same commands as in the whole.
    cut_is_one();
    let mut rest = bytes;
    while let Some((_, next)) = split_command(rest) {
        rest = next;
    }
    rest.is_empty()
}

/// A test of one macro command.
#[derive(Clone, Copy, PartialEq, Eq)]
pub(crate) enum PieceTest {
    /// The bytes are a command that macros may have.
    IsAllowed,
    /// The object of a Change Attribute has that attribute.
    HasAttribute,
}

/// The first macro command, by rising ID, that fails a test: the ID of its macro and the offset in the macro's bytes.
pub(crate) fn failing_piece(objects: &SortedStore, test: PieceTest) -> Option<(ObjectId, usize)>
    requires { rules.cut_short (shape_of objects.now) ≡ None }
    ensures { result ≡ option_map (λ p. (p.id, p.at)) (first_failing (piece_passes test (shape_of objects.now)) (pieces (shape_of objects.now))) }
{
    for (id, object) in objects.entries() {
        if let Some(found) = failing_of(objects, *id, object, test) {
            return Some(found);
        }
    }
    None
}

fn failing_of(
    objects: &SortedStore,
    id: ObjectId,
    object: &Object<Vec<u8>>,
    test: PieceTest,
) -> Option<(ObjectId, usize)>
    requires { IfSome (macro_bytes_in id (fixed (seen object.now))) (λ bytes. IsTrue (is_some (cut bytes))) }
    ensures { result ≡ option_map (λ p. (p.id, p.at)) (first_failing (piece_passes test (shape_of objects.now)) (flat_map pieces_of (named_macro (id, fixed (seen object.now))))) }
{
    match named_macro(id, object) {
        Some(bytes) => failing_in(objects, id, bytes, test),
        None => None,
    }
}

fn failing_in(
    objects: &SortedStore,
    id: ObjectId,
    bytes: &[u8],
    test: PieceTest,
) -> Option<(ObjectId, usize)>
    requires { IsTrue (is_some (cut bytes.now)) }
    ensures { result ≡ option_map (λ p. (p.id, p.at)) (first_failing (piece_passes test (shape_of objects.now)) (pieces_of (id, bytes.now))) }
{
    // The remaining bytes are cut into the same commands as in the whole.
    cut_is_one();
    let mut rest = bytes;
    while let Some((piece, next)) = split_command(rest) {
        if !passes(objects, piece, test) {
            return Some((id, bytes.len() - rest.len()));
        }
        rest = next;
    }
    None
}

fn passes(objects: &SortedStore, piece: &[u8], test: PieceTest) -> bool
    ensures { result ≡ piece_passes test (shape_of objects.now) (record { id = 0; at = 0; bytes = piece.now }) }
{
    match (test, macro_command(piece)) {
        (PieceTest::IsAllowed, command) => command.is_some(),
        (PieceTest::HasAttribute, Some(command)) => has_attribute(objects, &command),
        (PieceTest::HasAttribute, None) => true,
    }
}

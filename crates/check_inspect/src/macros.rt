//! Rules 6, 7 and 10: the bytes of macros.

ghost use Rattle.std.specs.Prelude.{◌≡◌, [], ◌++◌, map, OnOk, IsTrue, IfSome, is_some};
ghost use Rattle.std.specs.Option.{option_map, option_to_list};
ghost use Rattle.std.specs.List.{flat_map};
ghost use Rattle.vt_kinds.specs.Records.{seen};
ghost use Rattle.vt_commands.specs.Pieces.{cut};
ghost use Rattle.vt_stores.specs.Shapes.{shape_of, fixed};
ghost use Rattle.vt_verify.specs.Macros.{macro_bytes_in, named_macro, is_whole, pieces_of};
ghost use Rattle.check_inspect.specs.Lists.{all_failing};
ghost use Rattle.check_inspect.specs.References.{function_of};
ghost use Rattle.check_inspect.specs.Findings.{cut_findings, command_rule_findings, piece_findings, attribute_findings, if_whole};

use crate::finding::Finding;
use std::alloc::AllocError;
use vt_objects::laws::cut_is_one;
use vt_objects::{Command, Object, ObjectId, SortedStore, split_command};
use vt_verify::{has_attribute, is_whole, macro_command, named_macro};

/// The bytes of a macro with an ID of at most 255, if they end with a whole command.
pub(crate) fn whole_macro(id: ObjectId, object: &Object<Vec<u8>>) -> Option<&[u8]>
    ensures bytes { option_map (λ bytes. bytes.now) result ≡ if_whole (macro_bytes_in id (fixed (seen object.now))) }
    ensures whole { IfSome result (λ bytes. IsTrue (is_some (cut bytes.now))) }
{
    match named_macro(id, object) {
        Some(bytes) if is_whole(bytes) => Some(bytes),
        _ => None,
    }
}

/// Appends the macros, by rising ID, whose bytes end inside a command.
pub(crate) fn put_cut_short(
    objects: &SortedStore,
    findings: &mut Vec<Finding>,
) -> Result<(), AllocError>
    ensures { OnOk result (findings.new.items ≡ findings.old.items ++ cut_findings (shape_of objects.now)) }
{
    for (id, object) in objects.entries() {
        put_if_cut(*id, object, findings)?;
    }
    Ok(())
}

fn put_if_cut(
    id: ObjectId,
    object: &Object<Vec<u8>>,
    findings: &mut Vec<Finding>,
) -> Result<(), AllocError>
    ensures { OnOk result (findings.new.items ≡ findings.old.items ++ map (λ m. Finding.MacroBytes m.0) (all_failing is_whole (named_macro (id, fixed (seen object.now))))) }
{
    match named_macro(id, object) {
        Some(bytes) if !is_whole(bytes) => {
            findings.push(Finding::MacroBytes { id })?;
            Ok(())
        }
        _ => Ok(()),
    }
}

/// A rule of one macro command.
#[derive(Clone, Copy, PartialEq, Eq)]
pub(crate) enum CommandRule {
    /// Macros may have the command.
    IsAllowed,
    /// The object of a Change Attribute has that attribute.
    HasAttribute,
}

/// Appends the macro commands, by rising ID, that break a rule.
pub(crate) fn put_commands(
    objects: &SortedStore,
    rule: CommandRule,
    findings: &mut Vec<Finding>,
) -> Result<(), AllocError>
    ensures { OnOk result (findings.new.items ≡ findings.old.items ++ command_rule_findings rule (shape_of objects.now)) }
{
    for (id, object) in objects.entries() {
        put_commands_of(objects, *id, object, rule, findings)?;
    }
    Ok(())
}

fn put_commands_of(
    objects: &SortedStore,
    id: ObjectId,
    object: &Object<Vec<u8>>,
    rule: CommandRule,
    findings: &mut Vec<Finding>,
) -> Result<(), AllocError>
    ensures { OnOk result (findings.new.items ≡ findings.old.items ++ flat_map (piece_findings rule (shape_of objects.now)) (flat_map pieces_of (named_macro (id, fixed (seen object.now))))) }
{
    match whole_macro(id, object) {
        Some(bytes) => put_commands_in(objects, id, bytes, rule, findings),
        None => Ok(()),
    }
}

fn put_commands_in(
    objects: &SortedStore,
    id: ObjectId,
    bytes: &[u8],
    rule: CommandRule,
    findings: &mut Vec<Finding>,
) -> Result<(), AllocError>
    requires { IsTrue (is_some (cut bytes.now)) }
    ensures { OnOk result (findings.new.items ≡ findings.old.items ++ flat_map (piece_findings rule (shape_of objects.now)) (pieces_of (id, bytes.now))) }
{
    // The remaining bytes are cut into the same commands as in the whole.
    cut_is_one();
    let mut rest = bytes;
    while let Some((piece, next)) = split_command(rest) {
        let at = bytes.len() - rest.len();
        if let Some(finding) = fault_of(objects, id, at, piece, rule) {
            findings.push(finding)?;
        }
        rest = next;
    }
    Ok(())
}

/// The finding of a macro command that breaks a rule.
fn fault_of(
    objects: &SortedStore,
    id: ObjectId,
    at: usize,
    piece: &[u8],
    rule: CommandRule,
) -> Option<Finding>
    ensures { option_to_list result ≡ piece_findings rule (shape_of objects.now) (record { id = id; at = at; bytes = piece.now }) }
{
    match (rule, macro_command(piece)) {
        (CommandRule::IsAllowed, None) => Some(Finding::MacroCommand {
            id,
            at,
            function: function_of(piece),
        }),
        (CommandRule::HasAttribute, Some(command)) => without_attribute(objects, id, at, &command),
        _ => None,
    }
}

/// The finding of a Change Attribute whose object does not have that attribute.
fn without_attribute(
    objects: &SortedStore,
    id: ObjectId,
    at: usize,
    command: &Command<'_>,
) -> Option<Finding>
    ensures { option_to_list result ≡ attribute_findings (shape_of objects.now) (record { id = id; at = at; bytes = [] }) command.now }
{
    if has_attribute(objects, command) {
        return None;
    }
    let Command::ChangeAttribute {
        id: object,
        number,
        ..
    } = *command
    else {
        return None;
    };
    Some(Finding::MacroValue {
        id,
        at,
        object,
        attribute: number,
    })
}

/// The function of a macro command: its first byte.
pub(crate) fn function_of(piece: &[u8]) -> u8
    ensures { result ≡ function_of piece.now }
{
    match piece.first() {
        Some(function) => *function,
        None => 0,
    }
}

//! The object IDs in commands, checked for commands in macros.

ghost use Rattle.std.specs.Prelude.{◌≡◌, ◌++◌, Some};
ghost use Rattle.std.specs.Option.{option_to_list};
ghost use Rattle.vt_commands.specs.Targets.{object, object_or_null, object_of, pointer_targets, attribute_target, targets};

use crate::attributes::attribute;
use crate::command::Command;
use vt_kinds::{Kind, Kinds, ObjectId, ValueType};

/// An object ID in a command, and the objects allowed there for a command in a macro.
#[derive(Clone, Copy, PartialEq, Eq)]
pub struct Target {
    /// The ID, or NULL.
    pub id: ObjectId,
    /// Whether NULL is allowed.
    pub may_be_null: bool,
    /// The allowed kinds.
    pub kinds: Kinds,
}

impl<'a> Command<'a> {
    /// The object that the command changes, or the macro that it runs: the first ID in the command. `None` for a command
    /// without an ID.
    pub fn object(&self) -> Option<ObjectId>
        ensures { result ≡ object_of self.now }
    {
        match *self {
            Command::ControlAudio { .. } | Command::SetVolume { .. } | Command::DeletePool => None,
            Command::ChangeChildLocation { parent, .. }
            | Command::ChangeChildPosition { parent, .. } => Some(parent),
            Command::ChangeActiveMask { working_set, .. } => Some(working_set),
            Command::ChangeSoftKeyMask { mask, .. } => Some(mask),
            Command::HideShow { id, .. }
            | Command::EnableDisable { id, .. }
            | Command::ChangeSize { id, .. }
            | Command::ChangeBackgroundColour { id, .. }
            | Command::ChangeNumericValue { id, .. }
            | Command::ChangeEndPoint { id, .. }
            | Command::ChangeFontAttributes { id, .. }
            | Command::ChangeLineAttributes { id, .. }
            | Command::ChangeFillAttributes { id, .. }
            | Command::ChangeAttribute { id, .. }
            | Command::ChangePriority { id, .. }
            | Command::ChangeListItem { id, .. }
            | Command::ChangeStringValue { id, .. }
            | Command::ExecuteMacro { id } => Some(id),
        }
    }
}

/// The object IDs in a command, in the order of its bytes, two at most. `kind`, the kind of the changed object if it
/// exists, decides whether a value is an ID (docs/PROFILE.md, "Commands in macros").
pub fn targets(command: &Command<'_>, kind: Option<Kind>) -> (Option<Target>, Option<Target>)
    ensures { targets kind command.now ≡ option_to_list result.0 ++ option_to_list result.1 }
{
    match *command {
        Command::HideShow { id, .. } => (object(id, Kinds::Containers), None),
        Command::EnableDisable { id, .. } => (object(id, Kinds::Inputs), None),
        Command::ControlAudio { .. } | Command::SetVolume { .. } | Command::DeletePool => {
            (None, None)
        }
        Command::ChangeChildLocation { parent, child, .. }
        | Command::ChangeChildPosition { parent, child, .. } => {
            (object(parent, Kinds::Parents), object(child, Kinds::Drawn))
        }
        Command::ChangeSize { id, .. } => (object(id, Kinds::Sized), None),
        Command::ChangeBackgroundColour { id, .. } => (object(id, Kinds::Coloured), None),
        Command::ChangeNumericValue { id, value } => {
            (object(id, Kinds::Numeric), pointer_value(kind, value))
        }
        Command::ChangeEndPoint { id, .. } => (object(id, Kinds::Lines), None),
        Command::ChangeFontAttributes { id, .. } => (object(id, Kinds::Fonts), None),
        Command::ChangeLineAttributes { id, .. } => (object(id, Kinds::LineAttributes), None),
        Command::ChangeFillAttributes { id, pattern, .. } => (
            object(id, Kinds::FillAttributes),
            object_or_null(pattern, Kinds::Pictures),
        ),
        Command::ChangeActiveMask { working_set, mask } => (
            object(working_set, Kinds::WorkingSets),
            object(mask, Kinds::Masks),
        ),
        Command::ChangeSoftKeyMask { mask, keys, .. } => (
            object(mask, Kinds::Masks),
            object_or_null(keys, Kinds::SoftKeyMasks),
        ),
        Command::ChangeAttribute { id, number, value } => (
            object(id, Kinds::WithAttributes),
            attribute_target(kind, number, value),
        ),
        Command::ChangePriority { id, .. } => (object(id, Kinds::AlarmMasks), None),
        Command::ChangeListItem { id, item, .. } => (
            object(id, Kinds::InputLists),
            object_or_null(item, Kinds::Drawn),
        ),
        Command::ChangeStringValue { id, .. } => (object(id, Kinds::Texts), None),
        Command::ExecuteMacro { id } => (object(id, Kinds::Macros), None),
    }
}

fn object(id: ObjectId, kinds: Kinds) -> Option<Target>
    ensures { result ≡ Some (object id kinds) }
{
    Some(Target {
        id,
        may_be_null: false,
        kinds,
    })
}

fn object_or_null(id: ObjectId, kinds: Kinds) -> Option<Target>
    ensures { result ≡ Some (object_or_null id kinds) }
{
    Some(Target {
        id,
        may_be_null: true,
        kinds,
    })
}

/// The new value of an object pointer, in Change Numeric Value.
fn pointer_value(kind: Option<Kind>, value: u32) -> Option<Target>
    ensures { option_to_list result ≡ pointer_targets kind value }
{
    if kind? != Kind::ObjectPointer {
        return None;
    }
    let named = ObjectId::from_raw((value % 65_536) as u16);
    object_or_null(named, Kinds::AllButPointers)
}

/// The new value of a reference attribute, in Change Attribute.
fn attribute_target(kind: Option<Kind>, number: u8, value: u32) -> Option<Target>
    ensures { option_to_list result ≡ attribute_target kind number value }
{
    let kind = kind?;
    let value_type = attribute(kind, number)?.value_type;
    match value_type {
        ValueType::Reference(place) => Some(Target {
            id: ObjectId::from_raw(value_type.lowest(value) as u16),
            may_be_null: place.allows_null(),
            kinds: place.kinds(kind),
        }),
        _ => None,
    }
}

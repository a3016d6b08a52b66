//! Commands that leave unchanged what the text of a screen shows (docs/PROFILE.md, "The drawing and the screen text").

ghost use Rattle.std.specs.Prelude.{◌≡◌, ◌≤◌};
ghost use Rattle.vt_kinds.specs.Records.{seen};
ghost use Rattle.vt_effects.specs.Looks as looks;

use crate::changes::states::with_lowest_bit;
use crate::numbers::{byte, id, word};
use vt_commands::{Command, attribute};
use vt_kinds::{Field, Kind, Object, ObjectId};
use vt_stores::Store;

/// Whether a command leaves unchanged what a screen's text shows of its object. True for a command without an object,
/// and for one whose object is missing. A refused command changes nothing, whatever this returns.
pub fn keeps_look<S: Store>(store: &S, command: &Command<'_>) -> bool
    ensures { result ≡ looks.keeps_look (S.contents store.now) command.now }
{
    let Some(id) = command.object() else {
        return true;
    };
    match store.get(id) {
        Some(object) => { writes_unseen(command, object.kind()) || writes_same(command, object) }
        None => true,
    }
}

/// Whether a command writes no field of an object of this kind that a screen's text shows.
pub fn writes_unseen(command: &Command<'_>, kind: Kind) -> bool
    ensures { result ≡ looks.writes_unseen command.now kind }
{
    match *command {
        Command::ChangeSize { .. } => !shows_width(kind) && !shows_height(kind),
        Command::ChangeAttribute { number, .. } => match attribute(kind, number) {
            Some(attribute) => !is_in_text(attribute.field, kind),
            None => true,
        },
        Command::ChangeLineAttributes { .. } => !shows_width(kind),
        Command::ChangeBackgroundColour { .. }
        | Command::ChangeFontAttributes { .. }
        | Command::ChangeFillAttributes { .. }
        | Command::ChangePriority { .. }
        | Command::ExecuteMacro { .. }
        | Command::ControlAudio { .. }
        | Command::SetVolume { .. } => true,
        _ => false,
    }
}

/// Whether a screen's text shows a field of an object of this kind.
fn is_in_text(field: Field, kind: Kind) -> bool
    ensures { result ≡ looks.is_in_text field kind }
{
    match field {
        Field::Width => shows_width(kind),
        Field::Height => shows_height(kind),
        Field::Options => shows_options(kind),
        Field::SoftKeyMask
        | Field::KeyCode
        | Field::Variable
        | Field::Offset
        | Field::Scale
        | Field::Decimals
        | Field::Direction
        | Field::TargetVariable
        | Field::Target
        | Field::Value => true,
        _ => false,
    }
}

fn shows_width(kind: Kind) -> bool
    ensures { result ≡ looks.shows_width kind }
{
    matches!(
        kind,
        Kind::Container
            | Kind::Button
            | Kind::Line
            | Kind::Rectangle
            | Kind::Ellipse
            | Kind::Polygon
            | Kind::LinearBar
            | Kind::ArchedBar
            | Kind::Picture
    )
}

fn shows_height(kind: Kind) -> bool
    ensures { result ≡ looks.shows_height kind }
{
    kind != Kind::Picture && shows_width(kind)
}

fn shows_options(kind: Kind) -> bool
    ensures { result ≡ looks.shows_options kind }
{
    matches!(kind, Kind::InputList)
}

/// Whether a command writes into its object what is there already.
fn writes_same(command: &Command<'_>, object: &Object<Vec<u8>>) -> bool
    ensures { result ≡ looks.writes_same command.now (seen object.now) }
{
    match *command {
        Command::HideShow { state, .. } => state <= 1 && has_hidden_state(object, state),
        Command::EnableDisable { state, .. } => state <= 1 && has_enabled_state(object, state),
        Command::ChangeNumericValue { value, .. } => has_value(object, value),
        Command::ChangeActiveMask { mask, .. } => has_active(object, mask),
        _ => false,
    }
}

/// Whether a container is hidden in state 0, or shown in state 1.
fn has_hidden_state(object: &Object<Vec<u8>>, state: u8) -> bool
    requires { state ≤ 1 }
    ensures { result ≡ looks.has_hidden_state state (seen object.now) }
{
    let Object::Container(o) = object else {
        return false;
    };
    o.hidden == 1 - state
}

/// Whether an input is disabled in state 0, or enabled in state 1.
fn has_enabled_state(object: &Object<Vec<u8>>, state: u8) -> bool
    requires { state ≤ 1 }
    ensures { result ≡ looks.has_enabled_state state (seen object.now) }
{
    match object {
        Object::InputBoolean(o) => o.enabled == state,
        Object::InputString(o) => o.enabled == state,
        Object::InputNumber(o) => o.options_two == with_lowest_bit(o.options_two, state),
        Object::InputList(o) => o.options == with_lowest_bit(o.options, state),
        _ => false,
    }
}

/// Whether an object has a value, of which each kind stores its lowest bytes.
fn has_value(object: &Object<Vec<u8>>, value: u32) -> bool
    ensures { result ≡ looks.has_value value (seen object.now) }
{
    match object {
        Object::InputBoolean(o) => o.value == byte(value),
        Object::InputNumber(o) => o.value == value,
        Object::InputList(o) => o.value == byte(value),
        Object::OutputNumber(o) => o.value == value,
        Object::Meter(o) => o.value == word(value),
        Object::LinearBar(o) => o.value == word(value),
        Object::ArchedBar(o) => o.value == word(value),
        Object::NumberVariable(o) => o.value == value,
        Object::ObjectPointer(o) => o.value == id(value),
        _ => false,
    }
}

/// Whether a working set has this active mask.
fn has_active(object: &Object<Vec<u8>>, mask: ObjectId) -> bool
    ensures { result ≡ looks.has_active mask (seen object.now) }
{
    let Object::WorkingSet(o) = object else {
        return false;
    };
    o.active_mask == mask
}

//! The operator's actions on the shown working set (docs/PROFILE.md, "The operator").

ghost use Rattle.std.specs.Prelude.{◌≡◌, ◌≤◌, Some, true, length, IfNone};
ghost use Rattle.vt_can.specs.lines.Actions.{action_value};
ghost use Rattle.vt_server.specs.operator.ActionEffects as operators;
ghost use Rattle.vt_server.specs.operator.ActionContracts.{ActionKeepsLook, Performs, WouldBeRefused};

use vt_can::Action;
use vt_machine::{Acted, Live, OperatorRefusal};
use vt_objects::{Event, Object, ObjectId, SortedStore};

/// Does an action on a working set. Does nothing for `Action::Set`, which is the terminal's own action.
pub(crate) fn act(
    live: &mut Live<SortedStore>,
    action: &Action<'_>,
) -> Option<Result<Acted, OperatorRefusal>>
    ensures { Performs live.old (action_value action.now) result live.new }
{
    match action {
        Action::Press(id) => Some(live.press(ObjectId::from_raw(*id))),
        Action::Release(id) => Some(live.release(ObjectId::from_raw(*id))),
        Action::Select(id) => Some(live.select(ObjectId::from_raw(*id))),
        Action::Number(id, number) => Some(live.enter_number(ObjectId::from_raw(*id), *number)),
        Action::Text(id, text) => Some(live.enter_text(ObjectId::from_raw(*id), text)),
        Action::Set(_) => None,
    }
}

/// Whether an action leaves what the text of a screen shows of a working set. True only for a key whose event triggers quiet
/// macros alone.
pub(crate) fn keeps_look(live: &Live<SortedStore>, action: &Action<'_>) -> bool
    ensures { result ≡ true → ActionKeepsLook (Some live.now) (action_value action.now) }
{
    match action {
        Action::Press(id) => live.keeps_look_at(ObjectId::from_raw(*id), Event::KeyPress),
        Action::Release(id) => live.keeps_look_at(ObjectId::from_raw(*id), Event::KeyRelease),
        _ => false,
    }
}

/// The refusal of a text on a working set, if it would be refused. Changes nothing. An accepted text has at most 255 bytes.
pub(crate) fn text_fault(
    live: &mut Live<SortedStore>,
    id: u16,
    text: &[u8],
) -> Option<OperatorRefusal>
    ensures fault { WouldBeRefused (Some live.old) id text.now result }
    ensures short { IfNone result (length text.now ≤ 255) }
    ensures same { live.new ≡ live.old }
{
    let id = ObjectId::from_raw(id);
    let fault = live.text_fault(id, text);
    if fault.is_some() {
        return fault;
    }
    // An input that accepts the text has a text at least as long.
    if let Some(Object::InputString(input)) = live.get(id) {
        if text.len() <= input.text.as_slice().len() {
            return None;
        }
    }
    unreachable!()
}

/// A message of at most eight bytes, filled to eight with `FF`.
pub(crate) fn filled(bytes: &[u8]) -> [u8; 8]
    requires { length bytes.now ≤ 8 }
    ensures { result ≡ operators.filled bytes.now }
{
    let mut message = [0xFF; 8];
    message[..bytes.len()].copy_from_slice(bytes);
    message
}

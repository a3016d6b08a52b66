//! The operator's actions on the keys and inputs of a working set (docs/PROFILE.md, "The operator").

ghost use Rattle.std.specs.Prelude.{◌≡◌, ◌≤◌, IfOk, length};
ghost use Rattle.std.specs.Option.{option_map};
ghost use Rattle.std.specs.FinMap as finite;
ghost use Rattle.vt_commands.specs.Events.{raise};
ghost use Rattle.vt_machine.specs.OperatorActions as operating;
ghost use Rattle.vt_machine.specs.OperatorActions.{ComesTo, ComesToShown};

use crate::live::{HeldKey, Live};
use arrayvec::ArrayVec;
use byteorder::{ByteOrder, LittleEndian};
use thiserror::Error;
use vt_commands::function;
use vt_objects::{Event, Object, ObjectId, Raised, Store};

/// The reason to refuse an action of the operator: the refusals 1 to 7 of docs/PROFILE.md, "Refusals".
#[derive(Clone, Copy, Debug, PartialEq, Eq, Error)]
pub enum OperatorRefusal {
    /// The object is not shown.
    #[error("the object is not shown")]
    NotShown,
    /// The input is not enabled.
    #[error("the input is not enabled")]
    Disabled,
    /// The number is outside the range of the object.
    #[error("the number is outside the range of the object")]
    Range,
    /// The text is longer than the text of the object or of its variable.
    #[error("the text is longer than that of the object, or of its variable")]
    TooLong,
    /// The object is of a kind that the action does not accept.
    #[error("the object is of a kind that the action does not take")]
    WrongKind,
    /// The key is not the held key.
    #[error("the key is not the one that is held")]
    NotPressed,
    /// A key is held already.
    #[error("a key is held already, and has to be released first")]
    Held,
}

/// The result of an action of the operator.
#[derive(Drop)]
pub struct Acted {
    /// The message to the working set, from its function byte on, or no bytes if none is sent. A text of up to 4 bytes is
    /// not filled up to the 8 bytes of a frame.
    pub message: ArrayVec<u8, 259>,
    /// The number of steps of the macros of its events.
    pub steps: u32,
}

impl<S: Store> Live<S> {
    /// The Key or Button that the operator holds.
    pub fn held_key(&self) -> Option<ObjectId>
        ensures { result ≡ option_map (λ key. key.id) self.now.key }
    {
        match self.key {
            Some(key) => Some(key.id),
            None => None,
        }
    }

    /// The input that the operator has selected.
    pub fn selected_input(&self) -> Option<ObjectId>
        ensures { result ≡ self.now.input }
    {
        self.input
    }

    /// Presses a Key or a Button. Its message has code 1 and the active mask, the key is held, and its event Key Press is
    /// raised. Refuses, in this order, an object that is not shown, one of another kind, and any key while one is held; a
    /// refusal changes nothing.
    pub fn press(&mut self, id: ObjectId) -> Result<Acted, OperatorRefusal>
        ensures { ComesToShown self.old id (λ shown mask. operating.press shown self.old mask id) result self.new }
    {
        let mask = self.active_mask();
        if !self.shows(id) {
            return Err(OperatorRefusal::NotShown);
        }
        let Some(message) = key_message(self.store(), 1, id, mask) else {
            return Err(OperatorRefusal::WrongKind);
        };
        if self.key.is_some() {
            return Err(OperatorRefusal::Held);
        }
        self.key = Some(HeldKey { id, mask });
        let event = Event::KeyPress;
        let steps = self.raise_all(&[Raised { id, event }]);
        Ok(Acted { message, steps })
    }

    /// Releases the held key, shown or not. Its message has code 0, the mask of the press and the present key code, and
    /// its event Key Release is raised. Refuses any other ID with `NotPressed`; a refusal changes nothing.
    pub fn release(&mut self, id: ObjectId) -> Result<Acted, OperatorRefusal>
        ensures released { ComesTo self.old (operating.release self.old id) result self.new }
        // The held key is a Key or a Button, so there is a message.
        ensures message { IfOk result (λ acted. length acted.message.items ≡ 8) }
    {
        let Some(key) = self.key else {
            return Err(OperatorRefusal::NotPressed);
        };
        if key.id != id {
            return Err(OperatorRefusal::NotPressed);
        }
        let Some(message) = key_message(self.store(), 0, id, key.mask) else {
            unreachable!();
        };
        self.key = None;
        let event = Event::KeyRelease;
        let steps = self.raise_all(&[Raised { id, event }]);
        Ok(Acted { message, steps })
    }

    /// Selects an input. Raises Input Deselected on the former input, if one was selected, and then Input Selected on
    /// this one. Raises no event if the input is selected already. Sends no message. Refuses, in this order, an object
    /// that is not shown, one that is no input, and a disabled one; a refusal changes nothing.
    pub fn select(&mut self, id: ObjectId) -> Result<Acted, OperatorRefusal>
        ensures { ComesToShown self.old id (λ shown mask. operating.select shown self.old id) result self.new }
    {
        if !self.shows(id) {
            return Err(OperatorRefusal::NotShown);
        }
        match is_enabled(self.store(), id) {
            None => return Err(OperatorRefusal::WrongKind),
            Some(false) => return Err(OperatorRefusal::Disabled),
            Some(true) => {}
        }
        let raised = select_events(id, self.input);
        self.input = Some(id);
        let steps = self.raise_all(&raised);
        let message = ArrayVec::new();
        Ok(Acted { message, steps })
    }
}

/// The message of a Key or a Button; `None` for other objects.
fn key_message<S: Store>(
    store: &S,
    code: u8,
    id: ObjectId,
    mask: ObjectId,
) -> Option<ArrayVec<u8, 259>>
    ensures { option_map (λ message. message.items) result ≡ operating.key_message code id mask (finite.get (S.contents store.now) id) }
{
    match store.get(id) {
        Some(Object::Key(key)) => Some(key_bytes(
            function::SOFT_KEY_ACTIVATION,
            code,
            id,
            mask,
            key.key_code,
        )),
        Some(Object::Button(button)) => Some(key_bytes(
            function::BUTTON_ACTIVATION,
            code,
            id,
            mask,
            button.key_code,
        )),
        _ => None,
    }
}

fn key_bytes(
    function: u8,
    code: u8,
    id: ObjectId,
    mask: ObjectId,
    key_code: u8,
) -> ArrayVec<u8, 259>
    ensures { result.items ≡ operating.key_bytes function code id mask key_code }
{
    let mut bytes = [function, code, 0, 0, 0, 0, key_code, 0xFF];
    LittleEndian::write_u16(&mut bytes[2..4], id.raw());
    LittleEndian::write_u16(&mut bytes[4..6], mask.raw());
    message(&bytes)
}

/// A message of these bytes.
pub(crate) fn message(bytes: &[u8]) -> ArrayVec<u8, 259>
    requires { length bytes.now ≤ 259 }
    ensures { result.items ≡ bytes.now }
{
    let mut message = ArrayVec::new();
    match message.try_extend_from_slice(bytes) {
        Ok(()) => message,
        Err(_full) => unreachable!(),
    }
}

/// Whether an input is enabled; `None` for other objects.
fn is_enabled<S: Store>(store: &S, id: ObjectId) -> Option<bool>
    ensures { result ≡ operating.is_enabled (finite.get (S.contents store.now) id) }
{
    match store.get(id) {
        Some(Object::InputBoolean(input)) => Some(input.enabled != 0),
        Some(Object::InputString(input)) => Some(input.enabled != 0),
        Some(Object::InputNumber(input)) => Some(input.options_two % 2 == 1),
        Some(Object::InputList(list)) => Some(list.options % 2 == 1),
        _ => None,
    }
}

/// The events of the selection of an input.
fn select_events(id: ObjectId, selected: Option<ObjectId>) -> ArrayVec<Raised, 2>
    ensures { result.items ≡ operating.select_events id selected }
{
    let mut events = ArrayVec::new();
    match selected {
        Some(old) if old == id => {}
        Some(old) => {
            events.push(raised(old, Event::InputDeselected));
            events.push(raised(id, Event::InputSelected));
        }
        None => events.push(raised(id, Event::InputSelected)),
    }
    events
}

pub(crate) fn raised(id: ObjectId, event: Event) -> Raised
    ensures { result ≡ raise id event }
{
    Raised { id, event }
}

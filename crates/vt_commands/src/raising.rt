//! The events that commands raise.

ghost use Rattle.std.specs.Prelude.{◌≡◌, ◌∷◌, []};
ghost use Rattle.vt_commands.specs.Events.{raise, by_state, on_object, raised_by, row_events};
ghost use Rattle.vt_commands.specs.declared.row.Raises.TheVariants.{ByState, ActiveMask};

use crate::command::Command;
use crate::event::Event;
use crate::row::{CommandRow, Raises};
use arrayvec::ArrayVec;
use vt_kinds::ObjectId;

/// An event raised on an object.
#[derive(Clone, Copy, Default, PartialEq, Eq)]
pub struct Raised {
    /// The object.
    pub id: ObjectId,
    /// The raised event.
    pub event: Event,
}

/// The events that an accepted command raises by its row, in their order. Two events of Change Active Mask depend on the store: Hide on
/// the former active mask is not among these, and Show is not raised if the mask is active already.
pub fn row_events(command: &Command<'_>) -> ArrayVec<Raised, 2>
    ensures { result.items ≡ row_events command.now }
{
    let Some(row) = CommandRow::of(command.function()) else {
        return ArrayVec::new();
    };
    match row.raises {
        Raises::Nothing => ArrayVec::new(),
        Raises::One(event) => on_object(command.object(), event),
        Raises::ByState(off, on) => of_state(command, off, on),
        Raises::ActiveMask => of_active_mask(command),
    }
}

/// An event of the object of a command.
fn on_object(object: Option<ObjectId>, event: Event) -> ArrayVec<Raised, 2>
    ensures { result.items ≡ on_object event object }
{
    match object {
        Some(id) => one(id, event),
        None => ArrayVec::new(),
    }
}

/// One of two events, by the state that a command sets: `off` for 0, `on` for 1.
fn of_state(command: &Command<'_>, off: Event, on: Event) -> ArrayVec<Raised, 2>
    ensures { result.items ≡ raised_by (ByState off on) command.now }
{
    if let Command::HideShow { id, state } | Command::EnableDisable { id, state } = *command {
        return by_state(id, state, off, on);
    }
    ArrayVec::new()
}

/// The events of a change to another active mask.
fn of_active_mask(command: &Command<'_>) -> ArrayVec<Raised, 2>
    ensures { result.items ≡ raised_by ActiveMask command.now }
{
    let Command::ChangeActiveMask { working_set, mask } = *command else {
        return ArrayVec::new();
    };
    let mut events = one(working_set, Event::ActiveMask);
    events.push(Raised {
        id: mask,
        event: Event::Show,
    });
    events
}

fn one(id: ObjectId, event: Event) -> ArrayVec<Raised, 2>
    ensures { result.items ≡ raise id event ∷ [] }
{
    let mut events = ArrayVec::new();
    events.push(Raised { id, event });
    events
}

fn by_state(id: ObjectId, state: u8, off: Event, on: Event) -> ArrayVec<Raised, 2>
    ensures { result.items ≡ by_state id state off on }
{
    match state {
        0 => one(id, off),
        1 => one(id, on),
        _ => ArrayVec::new(),
    }
}

//! The events that a command raises.

ghost use Rattle.std.specs.Prelude.{◌≡◌, ◌≤◌, length};
ghost use Rattle.std.specs.FinMap as finite;
ghost use Rattle.vt_commands.specs.Events as events;
ghost use Rattle.vt_macros.specs.Machines as machines;

use arrayvec::ArrayVec;
use vt_objects::{Command, Event, Object, ObjectId, Raised, Store, row_events};

/// The events that a command raises when it is done, in their order. Change Active Mask hides the former active mask; if
/// the mask is active already, it neither hides nor shows a mask.
pub fn events_of<S: Store>(store: &S, command: &Command<'_>) -> ArrayVec<Raised, 3>
    ensures { result.items ≡ machines.events_of (S.contents store.now) command.now }
{
    if let Command::ChangeActiveMask { working_set, mask } = *command {
        return mask_events(active_mask(store, working_set), working_set, mask);
    }
    by_row(command)
}

/// The active mask of a working set. NULL if the object is not a working set.
pub fn active_mask<S: Store>(store: &S, working_set: ObjectId) -> ObjectId
    ensures { result ≡ machines.mask_of (finite.get (S.contents store.now) working_set) }
{
    let Some(Object::WorkingSet(set)) = store.get(working_set) else {
        return ObjectId::NULL;
    };
    set.active_mask
}

fn mask_events(active: ObjectId, working_set: ObjectId, mask: ObjectId) -> ArrayVec<Raised, 3>
    ensures { result.items ≡ machines.mask_events active working_set mask }
{
    let changed = Raised {
        id: working_set,
        event: Event::ActiveMask,
    };
    if active == mask {
        let mut events = ArrayVec::new();
        events.push(changed);
        return events;
    }
    let mut events = hide(active);
    events.push(changed);
    events.push(Raised {
        id: mask,
        event: Event::Show,
    });
    events
}

/// The Hide event of a mask; no event for NULL.
fn hide(mask: ObjectId) -> ArrayVec<Raised, 3>
    ensures events { result.items ≡ machines.hide mask }
    ensures few { length result.items ≤ 1 }
{
    let mut events = ArrayVec::new();
    if !mask.is_null() {
        events.push(Raised {
            id: mask,
            event: Event::Hide,
        });
    }
    events
}

fn by_row(command: &Command<'_>) -> ArrayVec<Raised, 3>
    ensures { result.items ≡ events.row_events command.now }
{
    let mut events = ArrayVec::new();
    match events.try_extend_from_slice(&row_events(command)) {
        Ok(()) => events,
        Err(_full) => unreachable!(),
    }
}

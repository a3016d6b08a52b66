//! Which working set is shown (docs/PROFILE.md, "The shown set and the selected set").

ghost use Rattle.std.specs.Prelude.{◌≡◌, ◌++◌, ℕ, [], ◌∷◌, None, Some, false, is_some};
ghost use Rattle.std.specs.FinMap as finite;
ghost use Rattle.std.specs.Option.{option_map};
ghost use Rattle.vt_kinds.specs.Records.{seen};
ghost use Rattle.vt_server.specs.shown.ShownSet as choosing;
ghost use Rattle.vt_server.specs.shown.DisplayValues.{display_value, found_pool};
ghost use Rattle.vt_server.specs.Outputs.{outputs_of, HasSpare};
ghost use Rattle.vt_server.specs.shown.Screens.{TellsChanges, redraws};
ghost use Rattle.vt_server.specs.States.{state_of};
ghost use Rattle.vt_server.specs.Steps.{with_shown_updated, sent_by_shown_update};
ghost use Rattle.vt_server.specs.Terminals as spec;

use crate::message::status::status_frame;
use crate::output::{Output, send};
use crate::terminal::Terminal;
use vt_can::assigned::NULL_ADDRESS;
use vt_machine::Live;
use vt_objects::{Event, Object, ObjectId, SortedStore};

/// A working set that shows an alarm.
#[derive(Clone, Copy)]
pub(crate) struct Alarm {
    pub(crate) address: u8,
    pub(crate) priority: u8,
}

/// What is shown, as in the status message. If no set is shown, the address is 254, and the IDs are NULL.
#[derive(Clone, Copy, PartialEq, Eq)]
pub struct ShownMasks {
    /// The address of the shown set.
    pub address: u8,
    /// Its active mask.
    pub mask: ObjectId,
    /// The soft key mask of that mask.
    pub soft_keys: ObjectId,
}

impl Terminal {
    /// Chooses the shown set, raises the events of its change, and sends the status if the display differs from the one before
    /// the input.
    pub(crate) fn update_shown(&mut self, before: &ShownMasks, outputs: &mut Vec<Output>)
        requires capacity { HasSpare 1 outputs.old }
        ensures state { state_of self.new ≡ with_shown_updated (state_of self.old) }
        ensures sent { (s : spec.State) → display_value before.now ≡ choosing.display s
            → outputs.new.items ≡ outputs.old.items ++ outputs_of (sent_by_shown_update s (state_of self.old)) }
        ensures tells { TellsChanges self.old self.new }
    {
        let was = self.shown;
        self.choose();
        self.raise_change(was);
        let now = self.display();
        if *before != now {
            send(outputs, status_frame(self.node.own(), &now));
        }
    }

    /// Chooses the selected and the shown set.
    pub(crate) fn choose(&mut self)
        ensures state { state_of self.new ≡ choosing.choosing (state_of self.old) }
        ensures rest { self.new ≡ record self.old { selected = self.new.selected; shown = self.new.shown } }
    {
        if !self.contents.may_have_pools() {
            self.selected = None;
            self.shown = None;
            return;
        }
        let selected = self.selected_now();
        self.shown = self.shown_by(selected);
        self.selected = selected;
    }

    /// If the shown set changed, raises Deactivate on the old set and Activate on the new one.
    fn raise_change(&mut self, was: Option<u8>)
        ensures state { state_of self.new ≡ spec.after_acts (state_of self.old) (choosing.events_of_change was (state_of self.old).shown) }
        ensures tells { redraws self.new ≡ false → (was ≡ (state_of self.old).shown) × (self.new ≡ self.old) }
    {
        let now = self.shown;
        if was == now {
            return;
        }
        self.raise_at(was, Event::Deactivate.number());
        self.raise_at(now, Event::Activate.number());
        self.redraws = true;
    }

    /// Raises an event of the Working Set at an address.
    fn raise_at(&mut self, address: Option<u8>, event: u8)
        ensures { state_of self.new ≡ spec.after_acts (state_of self.old) (choosing.raised_at address event) }
    {
        if let Some(address) = address {
            self.contents.raise(address, event);
        }
    }

    /// The shown set with its pool.
    pub(crate) fn shown_pool(&self) -> Option<(u8, &Live<SortedStore>)>
        ensures { option_map found_pool result ≡ choosing.pool_shown (state_of self.now) }
    {
        let address = self.shown?;
        let live = self.contents.pool(address)?;
        Some((address, live))
    }

    /// What is shown.
    pub fn display(&self) -> ShownMasks
        ensures { display_value result ≡ choosing.display (state_of self.now) }
    {
        match self.shown_pool() {
            None => ShownMasks {
                address: NULL_ADDRESS,
                mask: ObjectId::NULL,
                soft_keys: ObjectId::NULL,
            },
            Some((address, live)) => ShownMasks {
                address,
                mask: live.active_mask(),
                soft_keys: live.soft_key_mask(),
            },
        }
    }

    /// The set that shows the loudest alarm, or else the selected set.
    pub(crate) fn shown_by(&self, selected: Option<u8>) -> Option<u8>
        ensures { result ≡ choosing.or_selected (choosing.loudest (spec.pool_of (state_of self.now)) (state_of self.now).sets) selected }
    {
        match self.loudest() {
            Some(alarm) => Some(alarm.address),
            None => selected,
        }
    }

    /// The selected set if it has a pool, or else the first set with a pool.
    pub(crate) fn selected_now(&self) -> Option<u8>
        ensures { result ≡ choosing.selected_now (state_of self.now) }
    {
        if self.has_pool(self.selected) {
            return self.selected;
        }
        self.first_with_pool()
    }

    /// Whether an address has a pool.
    fn has_pool(&self, address: Option<u8>) -> bool
        ensures { result ≡ is_some (spec.pool_at (state_of self.now) address) }
    {
        match address {
            Some(address) => self.contents.pool(address).is_some(),
            None => false,
        }
    }

    /// The first set with a pool in the order of registration.
    fn first_with_pool(&self) -> Option<u8>
        ensures { result ≡ choosing.first_with_pool (spec.pool_of (state_of self.now)) (state_of self.now).sets }
    {
        for place in 0..self.registry.len() {
            if let Some(set) = self.registry.at(place) {
                let address = set.address();
                if self.contents.pool(address).is_some() {
                    return Some(address);
                }
            }
        }
        None
    }

    /// The alarm of the lowest priority number among the sets that show one; of equal ones the first registered.
    fn loudest(&self) -> Option<Alarm>
        ensures { result ≡ choosing.loudest (spec.pool_of (state_of self.now)) (state_of self.now).sets }
    {
        let mut loudest = None;
        let mut place = self.registry.len();
        while place > 0 {
            place -= 1;
            if let Some(set) = self.registry.at(place) {
                let address = set.address();
                loudest = louder(address, self.alarm(address), loudest);
            }
        }
        loudest
    }

    /// The priority of the alarm that the set at an address shows.
    fn alarm(&self, address: u8) -> Option<u8>
        ensures { result ≡ choosing.alarm_in (spec.pool_of (state_of self.now) address) }
    {
        let live = self.contents.pool(address)?;
        let Some(Object::AlarmMask(mask)) = live.get(live.active_mask()) else {
            return None;
        };
        Some(mask.priority)
    }
}

/// The alarm of the lower priority number; of equal ones the first.
fn louder(address: u8, priority: Option<u8>, other: Option<Alarm>) -> Option<Alarm>
    ensures { result ≡ choosing.louder address priority other }
{
    let Some(priority) = priority else {
        return other;
    };
    match other {
        Some(alarm) if alarm.priority < priority => Some(alarm),
        _ => Some(Alarm { address, priority }),
    }
}

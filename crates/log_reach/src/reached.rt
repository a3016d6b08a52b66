//! What was reached of the pools of a working set.

use crate::answers::Effect;
use crate::drawing::put_drawing;
use crate::drawn::Drawn;
use crate::line_before::Deed;
use crate::macros::ReachedMacros;
use std::alloc::{AllocError, Global};
use std::collections::BTreeMap;
use vt_machine::Live;
use vt_objects::{Event, Kind, ObjectId, SortedStore, Store};

/// What was reached of the pools of a working set.
#[derive(Drop)]
pub(crate) struct Reached {
    /// The kind of each object of its pools; of an object of several pools, the latest.
    pub(crate) kinds: BTreeMap<ObjectId, Kind>,
    pub(crate) drawn: Drawn,
    pub(crate) macros: ReachedMacros,
    /// How many commands were done.
    pub(crate) done: u64,
    /// How many commands were refused.
    pub(crate) refused: u64,
    /// The input that the operator selected last.
    selected: Option<ObjectId>,
}

impl Reached {
    /// A working set without a pool. Does not allocate.
    pub(crate) fn new(alloc: Global) -> Reached {
        Reached {
            kinds: BTreeMap::new(alloc),
            drawn: Drawn::new(alloc),
            macros: ReachedMacros::new(alloc),
            done: 0,
            refused: 0,
            selected: None,
        }
    }

    /// Notes the objects of a pool.
    pub(crate) fn note_pool(&mut self, store: &SortedStore) -> Result<(), AllocError> {
        for (id, object) in store.entries() {
            self.kinds.insert(*id, object.kind())?;
        }
        self.macros.renew();
        self.drawn.renew(store.count())
    }

    /// Notes the objects that a set draws when it is shown.
    pub(crate) fn note_drawing(&mut self, live: &Live<SortedStore>) -> Result<(), AllocError> {
        self.drawn.begin();
        put_drawing(live.store(), live.active_mask(), &mut self.drawn)
    }

    /// Counts a command that is refused.
    pub(crate) fn count_refused(&mut self) {
        self.refused = self.refused.saturating_add(1);
    }

    /// Counts a command that is done, with the active mask before it, and notes what it raises. The set may have no pool any more.
    pub(crate) fn note_done(
        &mut self,
        live: Option<&Live<SortedStore>>,
        mask: ObjectId,
        effect: Effect,
    ) -> Result<(), AllocError> {
        self.done = self.done.saturating_add(1);
        let Some(live) = live else {
            return Ok(());
        };
        match effect {
            Effect::Quiet => Ok(()),
            Effect::Event(raised) => self.macros.raise(live.store(), raised.id, raised.event),
            Effect::ActiveMask(next) => self.change_mask(live, mask, next),
        }
    }

    /// Notes what the change of the active mask from one to the next raises.
    fn change_mask(
        &mut self,
        live: &Live<SortedStore>,
        mask: ObjectId,
        next: ObjectId,
    ) -> Result<(), AllocError> {
        let set = live.working_set();
        self.macros.raise(live.store(), set, Event::ActiveMask)?;
        if mask != next {
            self.macros.raise(live.store(), mask, Event::Hide)?;
            self.macros.raise(live.store(), next, Event::Show)?;
        }
        Ok(())
    }

    /// Notes what an action of the operator raises on an object. Whether an entered value is new is not looked at.
    pub(crate) fn note_deed(
        &mut self,
        store: &SortedStore,
        deed: Deed,
        id: ObjectId,
    ) -> Result<(), AllocError> {
        match deed {
            Deed::Press => self.macros.raise(store, id, Event::KeyPress),
            Deed::Release => self.macros.raise(store, id, Event::KeyRelease),
            Deed::Select => self.select(store, id),
            Deed::Enter => {
                self.macros.raise(store, id, Event::EntryOfValue)?;
                self.macros.raise(store, id, Event::EntryOfNewValue)?;
                self.macros.raise(store, id, Event::Value)
            }
        }
    }

    /// Notes what the selection of an input raises. The one before counts as selected until then, also over a new pool.
    fn select(&mut self, store: &SortedStore, id: ObjectId) -> Result<(), AllocError> {
        if let Some(before) = self.selected {
            if before != id {
                self.macros.raise(store, before, Event::InputDeselected)?;
            }
        }
        self.selected = Some(id);
        self.macros.raise(store, id, Event::InputSelected)
    }
}

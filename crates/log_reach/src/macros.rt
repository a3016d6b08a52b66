//! Macros that may have run.

ghost use Rattle.std.specs.Prelude.{◌≡◌};
ghost use Rattle.log_reach.specs.Reports.{is_reached};

use std::alloc::{AllocError, Global};
use std::collections::BTreeSet;
use vt_objects::{
    Command, Event, Kinds, Object, ObjectId, Raised, SortedStore, Store, row_events, split_command,
};
use vt_verify::{macro_bytes, macro_command};

/// The macros of a working set that may have run: those at events that were raised, and those at events that their commands may raise.
/// What a command of a macro may raise is judged by its row alone, and by no test of a value, so that no macro that ran is left out.
#[derive(Drop)]
pub(crate) struct ReachedMacros {
    reached: BTreeSet<u8>,
    /// Reached macros whose commands are still to be followed.
    waiting: BTreeSet<u8>,
    /// Macros of the present pool whose commands were followed.
    followed: BTreeSet<u8>,
    /// Whether the macros that run when a mask of the present pool is hidden are noted.
    has_hidden: bool,
}

impl ReachedMacros {
    /// No macros. Does not allocate.
    pub(crate) fn new(alloc: Global) -> ReachedMacros {
        ReachedMacros {
            reached: BTreeSet::new(alloc),
            waiting: BTreeSet::new(alloc),
            followed: BTreeSet::new(alloc),
            has_hidden: false,
        }
    }

    /// Whether a macro may have run.
    pub(crate) fn contains(&self, id: ObjectId) -> bool
        ensures { result ≡ is_reached self.now id }
    {
        match u8::try_from(id.raw()) {
            Ok(id) => self.reached.contains(&id),
            Err(_) => false,
        }
    }

    /// Begins with a pool in which macros may have other commands, and objects other macros.
    pub(crate) fn renew(&mut self) {
        self.followed.clear();
        self.has_hidden = false;
    }

    /// Notes the macros that run when an event is raised on an object, and all that they can trigger.
    pub(crate) fn raise(
        &mut self,
        store: &SortedStore,
        id: ObjectId,
        event: Event,
    ) -> Result<(), AllocError> {
        self.list(store, Raised { id, event })?;
        // A pool has at most 256 macros that can run, and each waits once.
        for _ in 0..=u8::MAX {
            let Some(next) = self.waiting.pop_first() else {
                break;
            };
            self.followed.insert(next)?;
            let id = ObjectId::from_raw(u16::from(next));
            if let Some(bytes) = macro_bytes(store, id) {
                self.follow(store, bytes)?;
            }
        }
        Ok(())
    }

    /// Notes the macros that the commands of a macro may trigger.
    fn follow(&mut self, store: &SortedStore, bytes: &[u8]) -> Result<(), AllocError> {
        let mut rest = bytes;
        while let Some((piece, next)) = split_command(rest) {
            if let Some(command) = macro_command(piece) {
                self.list_all(store, &command)?;
            }
            rest = next;
        }
        Ok(())
    }

    /// Notes the macros at the events that a command of a macro may raise.
    fn list_all(&mut self, store: &SortedStore, command: &Command<'_>) -> Result<(), AllocError> {
        if matches!(command, Command::ChangeActiveMask { .. }) {
            self.list_hidden(store)?;
        }
        for raised in row_events(command) {
            self.list(store, raised)?;
        }
        Ok(())
    }

    /// Notes the macros that run when any mask is hidden, once for each pool: no command changes which they are.
    fn list_hidden(&mut self, store: &SortedStore) -> Result<(), AllocError> {
        if self.has_hidden {
            return Ok(());
        }
        self.has_hidden = true;
        for (id, object) in store.entries() {
            if Kinds::Masks.contains(object.kind()) {
                let event = Event::Hide;
                self.list(store, Raised { id: *id, event })?;
            }
        }
        Ok(())
    }

    /// Notes the macros that run at an event.
    fn list(&mut self, store: &SortedStore, raised: Raised) -> Result<(), AllocError> {
        let Some(object) = store.get(raised.id) else {
            return Ok(());
        };
        if raised.event == Event::RunByName {
            if matches!(object, Object::Macro(_))
                && let Ok(id) = u8::try_from(raised.id.raw())
            {
                self.put(id)?;
            }
            return Ok(());
        }
        let number = raised.event.number();
        for entry in object.macros() {
            if entry.event == number {
                self.put(entry.macro_id)?;
            }
        }
        Ok(())
    }

    /// Notes a macro.
    fn put(&mut self, id: u8) -> Result<(), AllocError> {
        self.reached.insert(id)?;
        if !self.followed.contains(&id) {
            self.waiting.insert(id)?;
        }
        Ok(())
    }
}

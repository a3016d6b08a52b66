//! What a replay reaches.

ghost use Rattle.std.specs.Prelude.{◌≡◌, ◌↔◌, ℕ, OnOk, IfOk};
ghost use Rattle.std.specs.List.{AllZip};
ghost use Rattle.vt_server.specs.States.{state_of};
ghost use Rattle.log_reach.specs.Reaches.{WasShown};
ghost use Rattle.log_reach.specs.Reports.{TellsOf};
ghost use Rattle.log_reach.specs.ShownMasks.{AddsShown, ShowsMask};

use crate::report::SetReach;
use crate::sets::ReachedSets;
use crate::shown_masks::ReachedMasks;
use std::alloc::{AllocError, Global};
use vt_can::{Line, LineFault};
use vt_server::{Output, Terminal};

/// What a replay reaches of the pools in a log.
///
/// A working set is noted by its address as soon as it has a pool, before the first line or after one. If its pool is deleted or
/// replaced, what was reached of it stays, and new objects join; an ID counts once.
///
/// A macro counts as reached if an event at which it is listed was raised, or may have been raised by a macro that counts. So more macros may
/// count than ran, but never fewer: what a command of a macro raises is judged without its values, a number or a text that the operator
/// enters counts as new, and an input counts as selected until the operator selects another one. From the loss of the terminal's address
/// on, no line raises an event.
#[derive(Drop)]
pub struct Reach {
    alloc: Global,
    shown_masks: ReachedMasks,
    sets: ReachedSets,
}

impl Reach {
    /// Notes the pools that a terminal has before the first line, and what it shows. `OutOfMemory` if an allocation is refused.
    pub fn new(alloc: Global, terminal: &Terminal) -> Result<Reach, AllocError>
        // No mask was shown but the active mask of the shown set.
        ensures { IfOk result (λ reach. (address mask : ℕ) → WasShown reach address mask ↔ ShowsMask (state_of terminal.now) address mask) }
    {
        let mut shown_masks = ReachedMasks::new(alloc);
        shown_masks.note(terminal)?;
        let sets = ReachedSets::new(alloc, terminal)?;
        Ok(Reach {
            alloc,
            shown_masks,
            sets,
        })
    }

    /// Notes what a line may reach, before the terminal takes it.
    pub fn before(&mut self, reading: &Result<Line<'_>, LineFault>, terminal: &Terminal)
        // No mask joins those that were shown.
        ensures { self.new.shown_masks ≡ self.old.shown_masks }
    {
        self.sets.before(reading, terminal);
    }

    /// Notes what the terminal shows after a line, with its outputs. After `OutOfMemory` this is of no more use.
    pub fn after(&mut self, outputs: &[Output], terminal: &Terminal) -> Result<(), AllocError>
        // The active mask of the shown set is among the masks that were shown of it. Those before stay, and no other mask joins.
        ensures { OnOk result (AddsShown (WasShown self.old) (WasShown self.new) (state_of terminal.now)) }
    {
        self.shown_masks.note(terminal)?;
        self.sets.after(outputs, terminal)
    }

    /// What was reached of each working set that had a pool, by rising addresses. `OutOfMemory` if an allocation is refused.
    pub fn sets(&self) -> Result<Vec<SetReach>, AllocError>
        // Each noted set is told, by rising addresses, with each object that was noted of it: among those that were reached or among those
        // that never were.
        ensures { IfOk result (λ sets. AllZip (TellsOf self.now.shown_masks) self.now.sets.sets.entries sets.items) }
    {
        let mut sets = Vec::new(self.alloc);
        for (address, set) in self.sets.sets.iter() {
            sets.push(SetReach::of_set(self.alloc, *address, set, &self.shown_masks)?)?;
        }
        Ok(sets)
    }
}

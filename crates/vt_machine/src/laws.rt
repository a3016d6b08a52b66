//! Theorems about the definitions of vt_machine: each is the contract of a function with an empty body.

ghost use Rattle.vt_machine.specs.OperatorEntries.{EntriesKeepOrder, EntriesKeepShapes};
ghost use Rattle.vt_machine.specs.SetStates.{ActiveMasksAreOne};
ghost use Rattle.vt_macros.specs.Runs.{NullIsNoObject};

pub use vt_effects::laws::{
    changes_keep, commands_keep_order, commands_keep_shapes, references_may_refer,
};
pub use vt_macros::laws::{
    events_end_before_pending, events_end_in_turn, pools_are_ready, runs_end,
};

/// NULL is not the ID of an object in the store of an acceptable pool, whatever commands and macros have run on it.
pub fn null_is_no_object()
    ensures { NullIsNoObject }
{}

/// No entry of the operator changes the shape of a store: its IDs, kinds, macro entries and macro bytes. docs/PROFILE.md,
/// "The operator".
pub fn entries_keep_shapes()
    ensures { EntriesKeepShapes }
{}

/// No entry of the operator breaks the order of a store: its references stay in order, and its chains short.
/// docs/PROFILE.md, "What every store keeps".
pub fn entries_keep_order()
    ensures { EntriesKeepOrder }
{}

/// The active mask of a store with one working set is unique.
pub fn active_masks_are_one()
    ensures { ActiveMasksAreOne }
{}

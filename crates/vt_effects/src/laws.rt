//! Theorems about the definitions of vt_effects: each is the contract of a function with an empty body.

ghost use Rattle.vt_effects.specs.Changes.{ChangesKeep, ReferencesMayRefer};
ghost use Rattle.vt_effects.specs.Looks.{LooksAreKept};
ghost use Rattle.vt_effects.specs.Soundness.{CommandsKeepOrder, CommandsKeepShapes};

/// No command changes the kind of an object, the macros of its events, or the bytes of a macro.
pub fn changes_keep()
    ensures { ChangesKeep }
{}

/// Each reference of an object after a command is one of its former references, or the other ID of the command if that ID
/// is allowed there.
pub fn references_may_refer()
    ensures { ReferencesMayRefer }
{}

/// No command breaks the order of a store: if all references are in order and no chain of inclusions is too long, both
/// hold after every command. docs/PROFILE.md, "What every store keeps".
pub fn commands_keep_order()
    ensures { CommandsKeepOrder }
{}

/// No command changes the shape of a store: its IDs, and the kind, the macro entries and the macro bytes of each object.
pub fn commands_keep_shapes()
    ensures { CommandsKeepShapes }
{}

/// A command keeps the look of a store if it writes no field that the text of a screen shows, or only values that are
/// there already. docs/PROFILE.md, "The drawing and the screen text".
pub fn looks_are_kept()
    ensures { LooksAreKept }
{}

//! Theorems about the definitions of vt_dialogs: each is the contract of a function with an empty body.

ghost use Rattle.vt_dialogs.specs.Limits.{LimitsAreTheTerminals};
ghost use Rattle.vt_dialogs.specs.TypedNumbers.{RawIsOne};

/// The terminal accepts from the operator what the limits of a shown input allow, and nothing else. docs/PROFILE.md, "Dialogs".
pub fn limits_are_the_terminals()
    ensures { LimitsAreTheTerminals }
{}

/// A typed number has one raw value at most. docs/PROFILE.md, "Dialogs".
pub fn raw_is_one()
    ensures { RawIsOne }
{}

//! Theorems about the definitions of vt_macros: each is the contract of a function with an empty body.

ghost use Rattle.vt_macros.specs.QuietMacros.{QuietRunsKeepLooks};
ghost use Rattle.vt_macros.specs.Runs.{EventsEndBeforePending, EventsEndInTurn, PoolsAreReady, RunsEnd};

/// Runs end: on a store of an acceptable pool whose macros cost the sum of their commands, all raised events run within
/// their budgets. Each command of their macros finds its objects, of allowed kinds, and the store keeps one working set
/// and stays in order. docs/PROFILE.md, "Runs", "Steps".
pub fn runs_end()
    ensures { RunsEnd }
{}

/// A run of several events leaves the store that the events leave one after the other, each within the budget that the
/// pool's report prints for it alone. docs/PROFILE.md, "Runs", "Costs and budgets".
pub fn events_end_in_turn()
    ensures { EventsEndInTurn }
{}

/// An event raised while other commands are pending, as by a command of a macro, ends within its own budget. The pending
/// commands then run on its store, with the remaining steps. docs/PROFILE.md, "Runs", "Costs and budgets".
pub fn events_end_before_pending()
    ensures { EventsEndBeforePending }
{}

/// The store of an acceptable pool has one working set and is in order, so that runs on it end. docs/PROFILE.md, "What
/// every store keeps".
pub fn pools_are_ready()
    ensures { PoolsAreReady }
{}

/// Events that trigger quiet macros alone keep the look of a store: the commands of these macros, and of all that they
/// trigger, write no field that the text of a screen shows. docs/PROFILE.md, "The drawing and the screen text".
pub fn quiet_runs_keep_looks()
    ensures { QuietRunsKeepLooks }
{}

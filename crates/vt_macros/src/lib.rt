//! The macros of a working set (ISO 11783-6): which of them run at an event, and how their commands change its objects.
//!
//! - `Index` has the macros of a pool by the object and event that trigger them, and their commands.
//! - `Index::find_quiet` finds the quiet macros, which leave unchanged what the text of a screen shows; `Index::are_quiet` returns
//!   whether events trigger quiet macros alone.
//! - `events_of` returns the events that a command raises; `raise` and `raise_all` run the macros of events, to their
//!   end.
//! - `Audio` has the audio commands that are done, for a host that sounds them.
//! - `laws` has the theorems: the specified machine never gets stuck, and each run ends within the budgets of its events.
//!
//! What one command changes is in vt_effects, and what an action of the operator does in vt_machine. Come here to ask which macros run at
//! an event, and in which order.
//!
//! docs/PROFILE.md, "Runs", "Steps", "Costs and budgets", has the rules.
#![tactic(auto)]

mod audio;
mod index;
pub mod laws;
mod quiet;
mod raising;
mod runs;

pub use audio::{Audio, Signal};
pub use index::Index;
pub use raising::{active_mask, events_of};
pub use runs::{raise, raise_all};

//! The masks, objects and macros of each pool that a replay reaches.
//!
//! - `Reach::new` begins with what a terminal has before the first line. Call `before` for each line before the terminal takes it, and
//!   then `after` with the terminal's outputs.
//! - `Reach::sets` returns a `SetReach` for each working set that had a pool: the masks that were shown, the objects that were drawn,
//!   the macros that may have run, and the others of each, as `PoolObject`s. A `ReachText` writes it with the names of objects.
//!
//! How it is printed as JSON is in log_stats. Come here to ask which masks, objects and macros a log reaches.
//!
//! docs/PROFILE.md, "The drawing", has what a mask draws, and "Event numbers" what raises an event.
#![tactic(auto)]

mod answers;
mod drawing;
mod drawn;
mod line_before;
mod macros;
mod pairs;
mod reach;
mod reached;
mod report;
mod sets;
mod shown_masks;
mod split;

pub use reach::Reach;
pub use report::{PoolObject, ReachText, SetReach};

//! Chains of inclusions: the inclusions of a store's objects, the depth of each object, and the limits of this terminal
//! (ISO 11783-6).
//!
//! - `find_depths` finds the depths of a store's objects, or a `Chain` that is too long.
//! - `Levels` certify that no chain is too long; `take_up` updates them for a new inclusion.
//! - `TERMINAL_LIMITS` are the `Limits` of this terminal.
//!
//! What a mask shows is in vt_shown. Come here to ask how deep objects include each other, and how deep they may.
//!
//! docs/PROFILE.md, "Inclusions and chains", has the rules.
#![tactic(auto)]

mod chains;
mod levels;
mod limits;

pub use chains::{Chain, entry, find_depths};
pub use levels::Levels;
pub use limits::{Limits, TERMINAL_LIMITS};

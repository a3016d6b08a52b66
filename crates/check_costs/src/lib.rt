//! What an event of an object pool can cost, and why.
//!
//! - `break_down` returns the `Breakdown` of an event: its `EventCost`, and a `MacroCost` for each macro that the event can run, with the
//!   `Share` of each command.
//! - `event_costs` returns the `EventCost` of each event of a pool at which macros run.
//! - `laws` has the theorem that each number is the sum of those below it.
//!
//! How the costs are printed is in check_reports. Come here to ask how many steps an event costs, and by which commands.
//!
//! docs/PROFILE.md, "Costs and budgets", has the rules. The pool need not be acceptable.
#![tactic(auto)]

mod breakdown;
mod costed_pool;
mod costliest;
pub mod laws;
mod macro_costs;
mod pool_costs;
mod runnable;
mod share;

pub use breakdown::{Breakdown, break_down};
pub use pool_costs::event_costs;
pub use share::{EventCost, MOST_STEPS, MacroCost, Share};
pub use vt_verify::Listings;

/// A refused allocation.
pub use std::alloc::AllocError as OutOfMemory;

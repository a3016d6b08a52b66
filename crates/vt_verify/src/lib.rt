//! Verification of object pools: whether all references, inclusions, macros and triggers of a pool are valid, and how
//! many steps each of its events can cost.
//!
//! - `verify`, `verify_owned` and `verify_update` return an `Accepted` pool or the first `Refusal`. `Accepted::into_parts`
//!   returns its `AcceptedParts`, with the `Listings` of the macros that run at each event.
//! - `find_depths` of vt_chains finds the depths of a store's objects, or a `Chain` that is too long; the `Limits` of
//!   this terminal are `TERMINAL_LIMITS`.
//! - `laws` has the theorems about the definitions.
//!
//! It ends at the first culprit; check_inspect finds all. Come here to ask which rules a pool has to meet, and by which it is refused.
//!
//! docs/PROFILE.md, "Verification of a pool", has the rules, "Costs and budgets" what an event costs, and "Reports"
//! the texts.
#![tactic(auto)]

mod accepted;
mod budgets;
mod commands;
pub mod laws;
mod listing;
mod macros;
mod objects;
mod order;
mod reference;
mod references;
mod refusal;
mod targets;
mod triggers;
mod verification;

pub use accepted::{Accepted, AcceptedParts};
pub use commands::{macro_command, named_macro};
pub use listing::{Listing, Listings};
pub use macros::{cut_short, is_whole};
pub use order::by_rank;
pub use reference::{Reference, Test};
pub use references::pointed;
pub use refusal::Refusal;
pub use targets::{has_attribute, kind_for};
pub use triggers::{TriggerGraph, macro_bytes};
pub use verification::{verify, verify_owned, verify_update};
pub use vt_chains::{Chain, Limits, TERMINAL_LIMITS, find_depths};

/// A refused allocation.
pub use std::alloc::AllocError as OutOfMemory;

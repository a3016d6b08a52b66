//! What a pool needs of a terminal, and what its maker may have overlooked: warnings, sizes, and the differences of two pools.
//!
//! - `warnings` finds each `Warning` about the objects of a pool, which need not be an accepted one.
//! - `needs_of` finds what a pool `Needs` of a terminal, and `lacks` finds each `Lack`: something of which a terminal has less.
//! - `needers_of` finds the `Needers`: the objects that need the most.
//! - `dearest_event` and `longest_chain` find the event with the most steps and the longest chain of inclusions of an accepted pool;
//!   `compare` finds each `PoolDifference` of two pools by their IDs, and `record_of` is the record by which objects are compared.
//! - `cell` is the area of a character of a font, and `extent_of` the area that an object takes.
//! - `Sizes` are the sizes of a terminal; `TERMINAL_SIZES` are those of this one.
//!
//! The faults of a pool are in check_inspect, and the words of a warning in check_text. Come here to ask which warnings a pool has, and
//! what terminal it needs.
//!
//! docs/PROFILE.md, "Warnings", has the meaning of each warning.
#![tactic(auto)]

mod differences;
mod elements;
mod fonts;
mod id_set;
mod loads;
mod naming;
mod needers;
mod needs;
mod rule;
mod sizes;
mod text_fields;
mod warning;

pub use differences::{PoolDifference, compare, record_of};
pub use elements::{Extent, extent_of};
pub use fonts::cell;
pub use loads::{Dearest, dearest_event, longest_chain};
pub use needers::{Furthest, Needers, NumberOf, needers_of};
pub use needs::{Lack, Needs, has_font, has_kind, lacks, needs_of};
pub use rule::warnings;
pub use sizes::{Area, Sizes, TERMINAL_SIZES};
pub use warning::{PlacedElement, TextField, Warning};

/// The error of a failed allocation.
pub use std::alloc::AllocError as OutOfMemory;

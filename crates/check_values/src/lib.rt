//! Values of a pool that are likely mistakes, though a terminal accepts the pool.
//!
//! - `value_warnings` finds each `ValueWarning` about the objects of a pool, which need not be an accepted one: numbers without a meaning,
//!   ranges, the bytes of pictures, the points of polygons, lengths of texts, events of macro entries, and what a Working Set lacks.
//!
//! Warnings about names, places and sizes are in check_needs, and the words of a warning in check_text. Come here to ask which values of
//! an object a maker of pools is warned of.
//!
//! docs/PROFILE.md, "Warnings", has the meaning of each warning.
#![tactic(auto)]

mod entries;
mod fields;
mod inputs;
mod pictures;
mod polygons;
mod ranges;
mod rules;
mod texts;
mod warning;
mod working_sets;

pub use rules::value_warnings;
pub use warning::{
    LimitedField, LimitedValue, Meaning, NoLanguage, OutOfRange, PointOutside, RangedField,
    ShortVariable, ValueWarning,
};

/// The error of a failed allocation.
pub use std::alloc::AllocError as OutOfMemory;

//! The screen of a working set as text: the elements of its active mask and soft keys (ISO 11783-6;
//! docs/PROFILE.md, "The drawing and the screen text").
//!
//! - `draw` appends the screen of a working set.
//! - `laws` has the theorems about the definitions.
//!
//! Pictures of masks are in draw_picture. Come here to ask which lines a screen has.
#![tactic(auto)]

mod drawing;
mod element;
pub mod laws;
mod line_end;
mod lines;
mod page;
mod screen;
mod texts;
mod values;

pub use screen::draw;

/// A refused allocation.
pub use std::alloc::AllocError as OutOfMemory;

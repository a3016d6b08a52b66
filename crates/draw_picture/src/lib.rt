//! The picture of a mask as SVG (ISO 11783-6).
//!
//! - `draw` returns the picture of a mask with its soft keys: each element in its area, with its own shapes and the elements within
//!   it. `picture_size` returns its size.
//! - `draw_part` returns the picture of one object by itself, in the same form.
//! - `list_elements` lists the same elements with their places, and `touched` finds the one at a place.
//!
//! The laws about the definitions are in the crate vt_tool_laws. docs/PROFILE.md, "Pictures", says how each kind looks.
//!
//! Which mask is drawn is decided by its callers. Come here to ask how a mask is drawn, and which element is at a place.
#![tactic(auto)]

mod document;
mod elements;
mod frame;
mod listing;
mod part;
mod touch;
mod walk;

pub use document::{draw, picture_size};
pub use listing::{Bounds, ListedElement, Position, list_elements};
pub use part::draw_part;
pub use touch::touched;

/// A refused allocation.
pub use std::alloc::AllocError as OutOfMemory;

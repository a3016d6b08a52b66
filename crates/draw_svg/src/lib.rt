//! Elements of SVG as text, and the Picture objects of a pool (ISO 11783-6), each written once.
//!
//! - `open`, `close` and `empty` append the tags of an `Element` with its `Attribute`s, `along` appends lines along points, and
//!   `text` appends characters. Only numbers, constants and characters are written, so only characters have to be escaped.
//! - `draw_images` appends the pixels of Picture objects as symbols, to which elements refer, and as patterns that fill shapes.
//! - `runs` returns the `Run`s of a Picture object: the rows of its image data, each cut into bytes that repeat. Their number is bounded
//!   by the bytes and the rows that are there, and not by the sizes that the record claims. `PixelFormat` has the number of pixels in a byte,
//!   and the colour number of each.
//! - `laws` has the theorems about the definitions.
//!
//! It draws no object but Picture objects: shapes are in draw_shapes. Come here to ask how a tag is written, or how the pixels of a picture
//! are drawn.
//!
//! docs/PROFILE.md, "Image data" and "Picture objects", has the formats and the run lengths, and says how pictures look.
#![tactic(auto)]

mod attribute;
mod characters;
mod element;
mod format;
mod images;
pub mod laws;
mod palette;
mod points;
mod raster;
mod run;
mod strokes;

pub use attribute::{Attribute, Flag, Paint, Style};
pub use characters::text;
pub use element::{Element, close, empty, open};
pub use format::PixelFormat;
pub use images::draw_images;
pub use points::{SvgPoint, along, close_points, open_points, push_point};
pub use run::{Run, runs};

/// A refused allocation.
pub use std::alloc::AllocError as OutOfMemory;

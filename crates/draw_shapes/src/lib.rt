//! The shapes of each kind of object as SVG (ISO 11783-6): fields with the rows of their texts, lines and areas, meters and bars.
//!
//! - `draw_shapes` appends the shapes of an object, in the coordinates of its own area. A Picture or a pattern is written as a reference to
//!   a picture that is written elsewhere.
//! - `text_shown` is the text that a field shows.
//! - `used_picture` returns the Picture to which the shapes of an object may refer.
//!
//! Where an element stands in its mask is in draw_picture. Come here to ask how a kind of object looks.
//!
//! docs/PROFILE.md, "Pictures", says how each kind looks.
#![tactic(auto)]

mod bits;
mod pen;
mod shapes;
mod used_pictures;

pub use shapes::{draw_shapes, text_shown};
pub use used_pictures::used_picture;

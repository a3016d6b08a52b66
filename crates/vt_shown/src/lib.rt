//! The objects that a mask shows, and its soft keys (ISO 11783-6).
//!
//! `search_shown` searches the elements of a mask's drawing, however long, and its soft keys for one object, and marks those
//! that it visits. `soft_key_mask` returns the soft key mask of a mask. `resolve` returns the object that an ID in a list
//! resolves to, `is_element` whether that is drawn, and `number_shown` the number that it shows.
//!
//! Where the objects stand is in vt_layout, and how they look in draw_picture. Come here to ask whether an object is shown.
//!
//! docs/PROFILE.md, "The drawing", has the rules.
#![tactic(auto)]

mod search;
mod showing;
mod soft_keys;

pub use search::search_shown;
pub use showing::{is_element, number_shown, resolve};
pub use soft_keys::soft_key_mask;

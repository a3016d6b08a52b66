//! Data in a page for a browser: blocks of lines of JSON, of which no text begins a tag.
//!
//! - `begin_block` and `end_block` write the tags around the data of a block, which has a name.
//! - A `Block` writes lines of JSON between them, each `<` escaped. A `Room` says how many lines it may have, and counts those that are left
//!   out.
//! - `laws` has the theorem that no text begins a tag in the data.
//!
//! It makes no lines and no page: those are made by log_page and check_page. Come here to ask how a text from outside comes into a page.
#![tactic(auto)]

mod block;
mod escape;
pub mod laws;

pub use block::{Block, Room, begin_block, end_block};

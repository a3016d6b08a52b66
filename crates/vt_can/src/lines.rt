//! Log lines: reading and writing.

mod action;
mod digits;
mod fields;
mod frame_line;
mod hex_pairs;
mod line;
mod places;
mod usual;
mod write;

pub use line::{Action, Line, LineFault, Skipped, parse_line};
pub use write::{write_frame, write_line};

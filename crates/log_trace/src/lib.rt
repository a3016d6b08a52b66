//! Logs in words: each line, the terminal's outputs, and the changes of its screen.
//!
//! A `Tracer` gives the lines of a log to a terminal, one after the other, and appends their trace to a text: a line for the line
//! itself, a line for each output, and the difference of the screen's lines. It puts messages in packets together, and has the outputs of
//! the last line. `laws` has theorems about such differences.
//!
//! The words of a message are in vt_messages_text. Come here to ask which lines `segyolant_log trace` prints.
//!
//! docs/PROFILE.md, "Traces", has the lines.
#![tactic(auto)]

mod changes;
mod heads;
pub mod laws;
mod lines;
mod outputs;
mod tracer;

pub use tracer::Tracer;

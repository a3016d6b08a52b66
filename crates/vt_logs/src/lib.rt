//! Replays logs to a terminal: reads bytes and writes text.
//!
//! `replay` reads a log from a `Source`, gives its lines to a `Terminal`, and writes the terminal's outputs, its screens and the
//! `Counts` to a `Sink`; it returns the counts, or a `ReplayFault`. A slice of bytes is a source and a vector is a sink: between
//! these two the faults Read and Write never occur for a log of fewer than 1,000,000,000 bytes. `Stream` makes a source or a sink of
//! any other reader or writer, for which this is not promised. `Notes` are for messages to people. `refusal_name` returns a refusal
//! to the operator as a replay prints it. docs/PROFILE.md, "Log lines" and "The program", has the output.
//!
//! Lines are read by vt_recorded. The subcommands of `segyolant_log` are in the crates log_*. Come here to ask what a replay writes for a line.
#![tactic(auto)]

mod counts;
mod fault;
mod log;
mod notes;
mod output;
mod progress;
mod streams;

pub use counts::Counts;
pub use fault::ReplayFault;
pub use log::{replay, replay_with_notes};
pub use notes::{FaultyLine, Notes, RefusedActions};
pub use output::refusal_name;
pub use progress::Progress;
pub use streams::{Sink, Source, Stream};

//! The subcommands `trace` and `draw` of `segyolant_log`.
//!
//! - `run_trace` and `run_draw` run them with their options, and return the `Status` with which the program ends. `trace_replay` is the
//!   part of `run_trace` after the files are read.
//! - `put_screens` writes each screen of a log with its picture, as lines of JSON.
//! - `picture_shown` is the picture of what a terminal shows.
//!
//! `sieve.rt` decides which lines of a log are printed, or drawn, by the filters of the command line.
//!
//! The lines of a trace are in log_trace, and the pictures in draw_picture. Come here to ask how `trace` and `draw` run.
//!
//! docs/LOGS.md has the subcommands.
#![tactic(auto)]

mod album;
mod draw;
mod messages;
mod picture;
mod screens;
mod sieve;
mod trace;
mod traced_line;

pub use album::put_screens;
pub use draw::run_draw;
pub use picture::picture_shown;
pub use trace::{run_trace, trace_replay};

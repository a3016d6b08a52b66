//! A log with all that its replay needs, for the subcommands of `segyolant_log`.
//!
//! - A `Log` is the file of a log, which is read anew in each pass: `Log::pass` reads each of its lines and gives it to a `Pass`, which is
//!   what a subcommand does with it. `Log::each_line` gives the bytes of each line to a `TakeLine`.
//! - A `Replay` is a log with all that its replay needs: `Replay::terminal` is the terminal before the first line. `Replay::pass` gives
//!   each line to a `ReplayPass`, with its `Turn`: when the terminal receives its frame (log_order). `take` gives it to the terminal then.
//!   `Recorded` is what the log says about the recorded terminal.
//! - `read_sets` and `new_terminal` begin a replay. `Messages` receives a run's messages and its progress.
//!
//! What is done with a line is in the crates of the subcommands. Come here to ask how a log is read for a subcommand, and with which
//! terminal it is replayed.
//!
//! docs/LOGS.md has the subcommands.
#![tactic(auto)]

mod claims;
mod feed;
mod in_order;
mod log;
mod messages;
mod reader;
mod replay;
mod start;

pub use claims::{Load, Recorded};
pub use feed::TakeLine;
pub use in_order::ReplayPass;
pub use log::{Log, Pass, tell_no_frame};
pub use log_order::{Turn, take};
pub use messages::Messages;
pub use reader::LogReader;
pub use replay::{Replay, tell_loss};
pub use start::{LoadedSet, new_terminal, read_sets};

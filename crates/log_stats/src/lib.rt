//! The subcommand `stats` of `segyolant_log`: a log in numbers, what it reached of each pool, and what it tells of time.
//!
//! - `run_stats` runs it with its options, and returns the `Status` with which the program ends. docs/LOGS.md has the subcommand.
//!   `put_numbers` is the part of it after the files are read.
//! - `Timing` takes the frames of a log with the messages in packets that they complete, and the lines that are passed over.
//!   `Timing::report` returns a `TimingReport`: `LineCounts`, the seconds with the busiest of them, `Groups`, the times of messages, and
//!   the `Clock`.
//!
//! Frames and transfers are counted in log_traffic, the times of messages in log_times, and what a log reaches of a pool in log_reach. Come
//! here to ask how many lines, frames and messages of each sort a log has, and how `stats` is printed.
//!
//! docs/PROFILE.md, "A log in numbers", has the numbers, and "Transport messages" the frames of transfers.
#![tactic(auto)]

mod busy_seconds;
mod clock;
mod fields;
mod groups;
mod line_counts;
mod stats;
mod timing;

pub use busy_seconds::{BusySecond, BusySeconds};
pub use clock::{Clock, ClockSteps};
pub use groups::Groups;
pub use line_counts::LineCounts;
pub use stats::{put_numbers, run_stats};
pub use timing::{Timing, TimingReport};

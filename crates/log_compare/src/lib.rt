//! The subcommand `compare` of `segyolant_log`: where a recorded terminal answered differently than this one.
//!
//! `run_compare` runs it with its options, and returns the `Status` with which the program ends. docs/LOGS.md has the subcommand.
//! `compare_replay` is the part of it after the files are read.
//!
//! What differs is decided in log_answers, and times are counted in log_times. What of it is left out, because this terminal never sends it or each terminal has its own
//! value, is in `left_out.rt`, and why this terminal differs in `causes.rt`. Come here to ask how `compare` prints a difference.
#![tactic(auto)]

mod causes;
mod compare;
mod counts;
mod left_out;
mod recorded_times;
mod report;
mod selection;
mod steps;
mod told;
mod totals;
mod unanswered;
mod words;

pub use compare::{compare_replay, run_compare};

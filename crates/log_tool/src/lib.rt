//! The program `segyolant_log` as a function of its command line, files and writers.
//!
//! `run` runs it on the arguments of its command line, and returns the `Status` with which it ends. docs/LOGS.md has the subcommands.
//!
//! Of the subcommands it has only `operator`. `trace` and `draw` are in log_runs, `test` in log_bench, and `compare`, `stats` and `pools` in
//! the crates of their names. Come here to ask how `operator` finds the actions of the operator.
#![tactic(auto)]

mod actions;
mod operator;
mod program;

pub use log_replay::Messages;
pub use program::run;

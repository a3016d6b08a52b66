//! The subcommand `test` of `segyolant_log`: whether each line of a log prints what is expected of it. With `--bless` it writes these
//! expectations anew.
//!
//! `run_test` runs the subcommand with its options, and returns the `Status` with which the program ends. docs/LOGS.md has the subcommand.
//!
//! Whether a line prints what is expected is decided in log_expect. Come here to ask how `test` reports it, as text, as JSON or for JUnit.
#![tactic(auto)]

mod bench;
mod entries;
mod junit;
mod outcome;
mod report;
mod test;

pub use test::run_test;

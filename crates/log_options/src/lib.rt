//! The command line of `segyolant_log`, and the options that it gives.
//!
//! `Options::parse` reads the arguments of a command line, and returns the `Options` of a subcommand or a `UsageError`, which may have a
//! `WrongOption`. docs/LOGS.md has the subcommands.
//!
//! A `LineFilter` and a `TopicFilter` are the lines and the differences that are printed.
//!
//! It opens no file and runs nothing: that is done in log_tool and the crates of the subcommands.
//!
//! Come here to ask which arguments `segyolant_log` takes, and what its help and its refusals say.
#![tactic(auto)]

mod arguments;
mod filter_options;
mod filters;
mod options;
mod places;
mod replays;
mod start_options;
mod subcommands;
mod terminal_options;
mod wrong_option;

pub use filters::{LineFilter, ObjectWord, TopicFilter, TopicPart, UnknownName};
pub use options::{
    CompareOptions, DifferenceOptions, DrawOptions, Format, OperatorOptions, Options, PoolsOptions,
    ReplayOptions, ReportOptions, StatsOptions, TestFormat, TestOptions, TraceOptions,
};
pub use places::{LineRange, LogPlace};
pub use start_options::StartOptions;
pub use terminal_options::TerminalOptions;
pub use wrong_option::WrongOption;

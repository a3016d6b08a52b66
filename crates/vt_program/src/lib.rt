//! The program `vt_replay` as a function of its command line, files and writers. It replays logs, and prints the reports of object
//! pools.
//!
//! `run` takes the words of the command line, opens files by an `Open`, such as the `Files` of the system, and returns a `Status`.
//! `Options::parse` reads the words, and returns `Options` or a `UsageError`. docs/PROFILE.md, "The program", has the words and the
//! statuses.
//!
//! How a log is replayed is in vt_logs. Come here to ask what the options of `vt_replay` do, and which messages it has.
#![tactic(auto)]

mod fault;
mod messages;
mod options;
mod pool_sentences;
mod program;
mod sentences;

pub use options::{Options, Preload, UsageError};
pub use program::{Status, run};
pub use vt_cli::{Files, Open};

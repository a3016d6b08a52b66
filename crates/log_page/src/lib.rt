//! The subcommand `report` of `segyolant_log`: one page for a browser, with all that the other subcommands say of a log.
//!
//! `run_report` runs it with its options, and returns the `Status` with which the program ends. docs/LOGS.md has the subcommand.
//!
//! The page has a head with its style, its body, blocks of data, and a script. A block of data has the lines of JSON of a subcommand. The
//! style and the script are constants, and the lines are those of log_runs, log_compare, log_stats and log_pools.
//!
//! The blocks are written by page_blocks, which has the theorem that no text of a log begins a tag in them.
//!
//! Come here to ask what the page holds, and how it looks.
#![tactic(auto)]

mod page;
mod report;

pub use report::run_report;

//! The subcommands `needs`, `why` and `rule` of `segyolant`: what an object pool needs of a terminal, what its events cost, and what the codes
//! of `check` mean.
//!
//! - `run_needs` prints what a pool needs, which objects need it, and whether the terminal has it. `put_needs` writes the same as a line of JSON.
//! - `run_why` prints which events of a pool cost steps, or why an event costs what it costs. `put_costs` writes the events as lines of JSON.
//! - `run_rule` prints what a code means. `rule_texts` are the `RuleText`s of all codes.
//!
//! docs/POOLS.md has samples. Needs are found in check_needs, and costs in check_costs: here they become lines for people and lines of JSON.
//! The command line is read in check_options.
//!
//! Come here to ask what `segyolant needs`, `segyolant why` or `segyolant rule` prints, and with which status it ends.
#![tactic(auto)]

mod costs;
mod needs;
mod rule;
mod why;

pub use needs::{put_needs, run_needs};
pub use rule::{RuleText, rule_texts, run_rule};
pub use why::{put_costs, run_why};

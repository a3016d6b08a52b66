//! The program `segyolant` as a function of its command line, files and writers.
//!
//! `run` runs it on the arguments of its command line, opens files by an `Open` and writes them by a `Save` of vt_cli, such as
//! `Files`, and returns the `Status` with which it ends.
//!
//! It has the subcommand `check`. `why`, `needs` and `rule` are in check_reports, `report` in check_page, `diff` in check_diff and `draw` in
//! draw_gallery, and the command lines of all are read in check_options.
//!
//! Come here to ask what a subcommand prints, and with which status it ends. docs/POOLS.md, "Every fault at once", has both.
#![tactic(auto)]

mod check;
mod program;

pub use check_text::MessageStyle;
pub use program::run;

//! The command line of `segyolant`, and the options that it gives.
//!
//! `Options::parse` reads the arguments of a command line, and returns the `Options` of a subcommand or a `UsageError`, which may have a
//! `WrongOption`. docs/POOLS.md, "Every fault at once", has the subcommands.
//!
//! It opens no file and runs nothing: that is done in check_tool, check_diff, check_page, check_reports and draw_gallery.
//!
//! Come here to ask which arguments `segyolant` takes, and what its help and its refusals say.
#![tactic(auto)]

mod arguments;
mod check;
mod choice;
mod draw;
mod line_format;
mod options;
mod subcommands;
mod why;
mod wrong_option;

pub use check::{ALL_WARNINGS, CheckOptions, Format, is_choice};
pub use choice::Choice;
pub use draw::{DrawOptions, Drawing, Origin};
pub use line_format::LineFormat;
pub use options::{DiffOptions, NeedsOptions, Options, ReportOptions, area};
pub use why::{ObjectWord, Question, WhyOptions};
pub use wrong_option::WrongOption;

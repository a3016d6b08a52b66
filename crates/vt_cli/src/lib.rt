//! What the programs have in common: command lines, files, lines of JSON, and how a run ends.
//!
//! - `CommandLine::command` makes the command for `clap` from a table of subcommands and arguments. `all_of`, `inputs_in`,
//!   `address` and `StartSet::new` read the values of options.
//! - A `UsageError` is a refusal of a command line, generic over the wrong options of a program, and `refuse` tells it. A `Status` is
//!   how a run ended.
//! - `Open` opens files by their paths, `List` lists the logs in a folder, and `Save` writes files and makes folders. `Files` are those of
//!   the system. `read_file`, `read_pool_file` and `read_names` read whole files, and
//!   `InspectedFile::read` inspects a pool as well. `save_file` writes a file beside the old one and moves
//!   it there, `overwrite_file` writes into it, and `make_folder` makes a folder. If one fails, it writes the name of the `Program`, the
//!   path and the reason. `tell_replaced` says how many files were replaced.
//! - A `JsonLine` is an object of JSON that is built from `Cell`s or member by member, and written as a line. `put_line` does so at once.
//! - `xml` escapes texts for XML.
//! - `arguments_of` collects the arguments of the process, and `exit_code` ends it: with them, `main` of a program is a page.
//!
//! It has no subcommand and no option of one program: those are in check_options and log_options. vt_replay uses `Open`,
//! `Files` and `address` alone, and vt_live nothing of it: their statuses and command lines are their own.
//!
//! Come here to ask why `segyolant` and `segyolant_log` refuse a word, name a file that cannot be read, or end with a status.
#![tactic(auto)]

mod argument;
mod cell;
mod command_line;
mod files;
mod inspected_file;
mod json_line;
mod process;
mod reading;
mod refusal;
mod start_set;
mod status;
mod values;
mod writing;
pub mod xml;

pub use argument::{Allowed, Argument, Form};
pub use cell::Cell;
pub use command_line::{CommandLine, Subcommand, VERSION};
pub use files::{Files, List, Open, Opened, Program, Replaced, Save};
pub use inspected_file::InspectedFile;
pub use json_line::{JsonLine, put_line};
pub use process::{arguments_of, exit_code};
pub use reading::{read_file, read_names, read_pool_file};
pub use refusal::{UsageError, refuse};
pub use start_set::StartSet;
pub use status::Status;
pub use values::{address, all_of, inputs_in};
pub use writing::{make_folder, overwrite_file, save_file, tell_replaced};

//! The subcommand `pools` of `segyolant_log`: the object pools and updates that were uploaded in a log (ISO 11783-6).
//!
//! - `run_pools` runs it with its options, and returns the `Status` with which the program ends. docs/LOGS.md has the subcommand.
//!   `put_uploads` does the same for a log that is open.
//! - `Uploads` puts uploads together from the messages of implements to terminals: `Uploads::take` receives a `ImplementMessage`, and returns
//!   the `Upload` that it ends. docs/PROFILE.md, "Uploads in a log", has the rules.
//!
//! Whether a pool is accepted is decided in vt_verify, and its faults are found in check_inspect. Come here to ask which uploads `pools`
//! finds in a log.
#![tactic(auto)]

mod message;
mod pools;
mod report;
mod sets;
mod upload;
mod uploads;
mod verdict;

pub use message::ImplementMessage;
pub use pools::{put_uploads, run_pools};
pub use upload::Upload;
pub use uploads::Uploads;

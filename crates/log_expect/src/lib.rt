//! What a log expects its lines to print, and whether they do.
//!
//! A line that begins with `#<` is an expectation: a text that the line before it is expected to print. If it begins with `#<?`, each
//! `?` in the text stands for any byte.
//!
//! - `differences` replays a log, and returns each line that does not print what is expected; `bless` writes a log with the expectations
//!   that it meets. docs/PROFILE.md, "Expectations", has the rules.
//! - `laws` has the theorems that a log without differences prints what fits its expectations, and that without wildcards only the same
//!   text fits.
//!
//! What a line prints is decided in vt_logs, and how differences are reported in log_bench. Come here to ask which text fits an
//! expectation.
#![tactic(auto)]

mod blessing;
mod comparison;
mod difference;
mod expectation;
pub mod laws;

pub use blessing::{Blessed, bless};
pub use comparison::differences;
pub use difference::LineDifference;
pub use expectation::line_fits;

//! What a log tells of the times of messages: gaps between signals, answer times, and transfers whose receiver did not answer.
//!
//! - `Times` takes the frames of a log, each with the message in packets that it completes. `Times::report` returns a `TimesReport`: the
//!   gaps of each `Signal`, the `FunctionTimes`, and the `MissingAnswers` of transfers.
//! - A `Message` is what an implement or a terminal says with a frame, or with the packets of which it is the last.
//! - `Occurrences` count something, with the first line of it.
//!
//! Frames and bytes are counted in log_traffic, and printed with the rest by log_stats. Come here to ask when a terminal is silent or slow.
//!
//! docs/PROFILE.md, "A log in numbers", has the rules.
#![tactic(auto)]

mod answer_times;
mod gaps;
mod handshakes;
mod labels;
mod message;
mod occurrences;
mod open_requests;
mod rhythm;
mod subject;
mod summary;
mod times;

pub use answer_times::FunctionTimes;
pub use gaps::{Signal, SignalGaps};
pub use handshakes::MissingAnswers;
pub use labels::{FunctionLabel, put_group};
pub use message::{Direction, Message};
pub use occurrences::{FirstPlace, Occurrences};
pub use rhythm::Gap;
pub use summary::TimeSummary;
pub use times::{Times, TimesReport};

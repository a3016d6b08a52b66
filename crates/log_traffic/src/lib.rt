//! The frames of a log in numbers: frames, bytes and bits of each source, transfers, and frames that were recorded twice.
//!
//! - `Traffic` takes the frames of a log, one after the other. It counts the `Counts` of each source exactly.
//! - `Traffic::report` returns a `TrafficReport`: the times of the first and the last frame, the least load of the bus, the `Share` of each
//!   source, the `Transfers` of both transport protocols, and how many frames were seen twice. Its `Display` is the text of the report.
//! - `control_in` is the `Control` message of a transfer in a frame, with its `Channel`; `Requests` are the open requests of transfers.
//! - A `Moment` is a line and its time. `Seconds` and `Milliseconds` write times, and `Percent` a load.
//!
//! Time between frames, and what the log reaches of a pool, are in log_stats and log_reach. Come here to ask how frames and transfers are
//! counted.
//!
//! docs/PROFILE.md, "A log in numbers", has the numbers, and "Transport messages" the frames of transfers.
#![tactic(auto)]

mod control;
mod counts;
mod load;
mod moment;
mod report;
mod requests;
mod sightings;
mod sources;
mod span;
mod traffic;
mod transfers;

pub use control::{Control, control_in};
pub use counts::Counts;
pub use load::{Percent, load_of};
pub use moment::{Milliseconds, Moment, Seconds};
pub use report::{Share, TrafficReport};
pub use requests::{Channel, Request, Requests};
pub use traffic::Traffic;
pub use transfers::{LongTransfer, Transfers};

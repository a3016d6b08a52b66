//! When the terminal that replays a log receives each of its frames.
//!
//! - `Sorter::turn` returns the `Turn` of a frame. It puts the packets of messages to the recorded terminal in order, and has those whose
//!   turn comes later as `LateFrame`s. `Endings` note which of these messages the recorded terminal received.
//! - `take` gives the input of a line to a terminal if it is its turn.
//!
//! Which lines a log has is decided in log_replay. Come here to ask why a frame of a log is no input of the terminal, or a later one.
//!
//! docs/PROFILE.md, "The recorded terminal in a replay", has the rules.
#![tactic(auto)]

mod endings;
mod input;
mod marks;
mod sorter;
mod transfer;
mod turn;

pub use endings::Endings;
pub use sorter::{Sorter, Spoiled, SpoiledBy};
pub use transfer::{LateFrame, Moved};
pub use turn::{Turn, take};

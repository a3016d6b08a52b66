//! Messages between any two nodes of a bus, put together from the frames of a log.
//!
//! - `Listener` receives frames. It puts each packet of a transport protocol at the place of its number, so that a packet that is
//!   received twice does no harm, and returns each `SentMessage` when it has received the last of its packets.
//! - `Broken` is a transfer that ended before it was whole, with the first packet that is missing.
//!
//! The receivers of the terminal, which have times and aborts, are vt_transport and vt_extended. Come here to ask which messages a log has.
//!
//! docs/PROFILE.md, "Transport messages", has the frames, and "Listening" the rules.
#![tactic(auto)]

mod broken;
mod channel;
mod listener;
mod part;
mod sent_message;
mod transfer;

pub use broken::Broken;
pub use listener::Listener;
pub use sent_message::SentMessage;

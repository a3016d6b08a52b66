//! CAN frames, log lines, and the sessions and bytes shared by both transport protocols. Only the table of
//! `Sessions` is allocated.
//!
//! - Frames: `CanId` is an identifier of 29 bits. `Frame` is an identifier with up to eight bytes of data.
//! - Lines: `parse_line` returns a `Line` or a `LineFault`. A `Line` is a frame with its time, an `Action` of the
//!   operator, a `Skipped` frame, or a comment. `write_line` and `write_frame` write a frame.
//! - Transport: `Sessions` has at most one session for each address, `Timed` by its last frame. `Received` is the
//!   result of a frame for its session. `Heard` is the answer of a receiver to a frame: nothing, a reply, or a whole
//!   message with its `Bytes`. `Reason` is the reason of an abort.
//! - `assigned` has the numbers assigned by the standard and the timeouts, and `laws` theorems about the definitions in
//!   specs/.
//!
//! The protocols that use its sessions are in vt_transport and vt_extended, and what a frame means is in vt_node. Come here to ask what a
//! line of a log is, or what the bits of an identifier say.
//!
//! docs/PROFILE.md, "Identifiers" and "Log lines", has the rules.
#![tactic(auto)]

pub mod assigned;
mod frames;
pub mod laws;
mod lines;
mod transport;

pub use frames::{CanId, Frame};
pub use lines::{Action, Line, LineFault, Skipped, parse_line, write_frame, write_line};
pub use transport::{
    Bytes, Heard, Reason, Received, Sessions, Timed, abort_bytes, append_packet, earlier, frame_of,
    is_transport_frame_to, numbered_packet, three_bytes,
};

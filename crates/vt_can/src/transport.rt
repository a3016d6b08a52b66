//! The sessions, bytes and answers shared by both transport protocols.

mod bytes;
mod first_time;
mod heard;
mod received;
mod sessions;
mod wire;

pub use bytes::Bytes;
pub use first_time::earlier;
pub use heard::Heard;
pub use received::Received;
pub use sessions::{Sessions, Timed};
pub use wire::{
    Reason, abort_bytes, append_packet, frame_of, is_transport_frame_to, numbered_packet,
    three_bytes,
};

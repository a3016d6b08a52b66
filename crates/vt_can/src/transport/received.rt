//! The result of a frame for its session.

use crate::transport::bytes::Bytes;

/// The result of a frame for its session: the end of the session with a reply, a session with packets to come, or a
/// whole message with the acknowledgement of its end.
#[derive(Drop)]
pub enum Received<S, R> {
    Refused(R),
    More(S, Option<R>),
    Whole { pgn: u32, bytes: Bytes, reply: R },
}

//! Messages from one node to another.

/// A message from one node to another.
#[derive(Drop)]
pub struct SentMessage {
    /// The address of the sender.
    pub source: u8,
    /// The address of the other end.
    pub destination: u8,
    /// The parameter group.
    pub pgn: u32,
    /// The bytes.
    pub bytes: Vec<u8>,
}

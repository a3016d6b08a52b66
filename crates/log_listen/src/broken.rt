//! Transfers that ended early.

/// A transfer that ended before its message was whole.
#[derive(Clone, Copy, PartialEq, Eq)]
pub struct Broken {
    /// The address of the sender.
    pub source: u8,
    /// The address of the other end.
    pub destination: u8,
    /// The parameter group of the message.
    pub pgn: u32,
    /// The size of the whole message, in bytes.
    pub size: u64,
    /// The number of the first packet that was not received, from 1.
    pub missing: u64,
}

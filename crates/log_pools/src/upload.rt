//! Uploads.

/// An upload of an object pool.
#[derive(Drop)]
pub struct Upload {
    /// The line of the first piece, from 1. If there is no piece, the line of the upload's end.
    pub first_line: u64,
    /// The address of the implement.
    pub source: u8,
    /// The address of the terminal.
    pub destination: u8,
    /// How many pieces there are.
    pub pieces: u64,
    /// The bytes of the pieces, in their order.
    pub bytes: Vec<u8>,
}

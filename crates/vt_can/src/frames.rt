//! Identifiers and frames.

mod frame;
mod identifier;

pub use frame::Frame;
pub use identifier::CanId;

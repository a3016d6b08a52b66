//! Frames received from the bus: address claims, transport sessions, and the timeouts at the time of each frame.

pub(crate) mod claim;
pub(crate) mod step;
pub(crate) mod timeouts;
pub(crate) mod transport;

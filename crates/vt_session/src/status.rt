//! The statuses of the calls.

/// The call is done.
pub const DONE: u32 = 0;

/// Memory was refused. The terminal is unchanged, except that the time may have advanced if the call was an action at a time. Once the
/// outputs are taken, the call may be repeated.
pub const NO_MEMORY: u32 = 1;

/// There is no such frame, action, address or input. Nothing is changed.
pub const NO_SUCH: u32 = 2;

/// Outputs wait to be taken. Nothing is changed.
pub const WAITING: u32 = 3;

/// The own address is not one that a node may have. Nothing is changed.
pub const NOT_BEGUN: u32 = 4;

/// The bytes are not an accepted pool. Nothing is changed.
pub const NO_POOL: u32 = 5;

//! The limits of a pool.

/// The greatest length of a chain of inclusions, and the greatest cost of a macro or an event.
#[derive(Clone, Copy, PartialEq, Eq)]
pub struct Limits {
    /// The most inclusions in a chain.
    pub inclusions: u8,
    /// The most steps of a macro or an event.
    pub steps: u32,
}

/// The limits of this terminal.
pub const TERMINAL_LIMITS: Limits = Limits {
    inclusions: 32,
    steps: 1_000_000,
};

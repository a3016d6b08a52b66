//! The working set that is there from the start of a log.

use crate::values::address;

/// The value of `--owner`, unless another is given.
const OWNER: &str = "80";

/// A working set that is there from the start of a log.
#[derive(Clone, Copy, PartialEq, Eq)]
pub struct StartSet<'a> {
    /// The file of its pool.
    pub pool: &'a str,
    /// Its address, at most 253, and not that of the terminal.
    pub owner: u8,
}

impl<'a> StartSet<'a> {
    /// The set with a pool at the address that the value of `--owner` gives, or else at 80. The error is that value, if no working set
    /// beside a terminal at the address `own` may have it.
    pub fn new(pool: &'a str, owner: Option<&'a str>, own: u8) -> Result<StartSet<'a>, &'a str> {
        let value = owner.unwrap_or(OWNER);
        match address(value) {
            Some(owner) if owner != own => Ok(StartSet { pool, owner }),
            _ => Err(value),
        }
    }
}

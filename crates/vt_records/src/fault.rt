//! The faults of a pool.

ghost use Rattle.std.specs.Prelude.{Some};
ghost use Rattle.vt_records.specs.FaultTexts.{fault_text};

use std::fmt;
use thiserror::Error;

/// The first fault of a pool. `at` is the index of the faulty record's first byte, or of the faulty field's first
/// byte. `Display` prints the line of its report.
#[derive(Clone, Copy, Debug, PartialEq, Eq, Error)]
pub enum PoolFault {
    /// The bytes end inside a record.
    Truncated { at: usize },
    /// A record has an unknown type other than 29 to 33.
    UnknownType { at: usize },
    /// A record is of an auxiliary function or input, types 29 to 33.
    LeftOutType { at: usize },
    /// A scale is none of the four; `at` is the index of its first byte.
    Scale { at: usize },
    /// Decimals are more than 7; `at` is the index of their byte.
    Decimals { at: usize },
    /// An allocation for a record failed.
    OutOfMemory { at: usize },
    /// A record has the ID NULL, which belongs to no object.
    NullId { at: usize },
}

impl fmt::Display for PoolFault {
    ghost output = { λ fault. Some (fault_text fault) };

    fn fmt<W: fmt::Write>(&self, f: &mut fmt::Formatter<W>) -> fmt::Result {
        match self {
            PoolFault::Truncated { at } => write!(f, "fault 1 Truncated at {at}"),
            PoolFault::UnknownType { at } => write!(f, "fault 2 UnknownType at {at}"),
            PoolFault::LeftOutType { at } => write!(f, "fault 3 LeftOutType at {at}"),
            PoolFault::Scale { at } => write!(f, "fault 4 Scale at {at}"),
            PoolFault::Decimals { at } => write!(f, "fault 5 Decimals at {at}"),
            PoolFault::OutOfMemory { at } => write!(f, "fault 6 OutOfMemory at {at}"),
            PoolFault::NullId { at } => write!(f, "fault 7 NullId at {at}"),
        }
    }
}

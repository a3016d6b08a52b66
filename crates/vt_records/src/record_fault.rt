//! The faults of one record, without its position in the pool.

ghost use Rattle.std.specs.Prelude.{◌≡◌, ◌<◌, ◌^◌};
ghost use Rattle.vt_records.specs.declared.record_fault.RecordFault.TheVariants.{OutOfMemory};
ghost use Rattle.vt_records.specs.RecordFaults.{fault_at};

use crate::fault::PoolFault;
use std::alloc::{AllocError, AllocFailed};

/// The fault of a record, without its position in the pool.
#[derive(Clone, Copy, PartialEq, Eq)]
pub enum RecordFault {
    Truncated,
    UnknownType,
    LeftOutType,
    /// A scale is none of the four; `at` is its offset from the record's first byte.
    Scale { at: u8 },
    /// Decimals are more than 7; `at` is their offset from the record's first byte.
    Decimals { at: u8 },
    OutOfMemory,
    NullId,
}

impl RecordFault {
    /// The pool fault of this record, which begins at byte `at` of the pool.
    pub fn at(self, at: usize) -> PoolFault
        requires { at < 2 ^ 63 }
        ensures { result ≡ fault_at self at }
    {
        match self {
            RecordFault::Truncated => PoolFault::Truncated { at },
            RecordFault::UnknownType => PoolFault::UnknownType { at },
            RecordFault::LeftOutType => PoolFault::LeftOutType { at },
            RecordFault::Scale { at: offset } => PoolFault::Scale {
                at: at + usize::from(offset),
            },
            RecordFault::Decimals { at: offset } => PoolFault::Decimals {
                at: at + usize::from(offset),
            },
            RecordFault::OutOfMemory => PoolFault::OutOfMemory { at },
            RecordFault::NullId => PoolFault::NullId { at },
        }
    }
}

impl From<AllocError> for RecordFault {
    ghost from_gives = { λ _ stop. stop ≡ OutOfMemory };

    fn from(_error: AllocError) -> RecordFault {
        RecordFault::OutOfMemory
    }
}

impl<T: Drop> From<AllocFailed<T>> for RecordFault {
    ghost from_gives = { λ _ stop. stop ≡ OutOfMemory };

    fn from(_error: AllocFailed<T>) -> RecordFault {
        RecordFault::OutOfMemory
    }
}

//! The faults of a replay.

ghost use Rattle.std.specs.Prelude.{◌≡◌};
ghost use Rattle.vt_logs.specs.declared.fault.ReplayFault.TheVariants.{Memory};

use std::alloc::AllocError;
use thiserror::Error;

/// A fault that ends a replay early. The bytes written before it are the beginning of the replay's text.
#[derive(Clone, Copy, Debug, PartialEq, Eq, Error)]
pub enum ReplayFault {
    /// A read failed, or 1,000,000,000 reads did not reach the end of the log.
    #[error("the log could not be read to its end")]
    Read,
    /// A write failed or took no bytes, or 1,000,000,000 writes did not write a text whole.
    #[error("the output could not be written")]
    Write,
    /// An allocation was refused, to the replay or to its writer.
    #[error("the memory for the replay was refused")]
    Memory,
    /// A line is longer than 4,096 bytes.
    #[error("a line of the log is longer than 4096 bytes")]
    TooLong,
}

impl From<AllocError> for ReplayFault {
    ghost from_gives = { λ _ fault. fault ≡ Memory };

    fn from(_error: AllocError) -> ReplayFault {
        ReplayFault::Memory
    }
}

//! Why a log gives no pool.

ghost use Rattle.std.specs.Prelude.{◌≡◌, ◌≢◌};
ghost use Rattle.draw_gallery.specs.declared.fault.StateFault.TheVariants.{Memory, NothingShown};

use std::alloc::AllocError;
use thiserror::Error;
use vt_logs::ReplayFault;

/// Why a log gives no pool.
#[derive(Clone, Copy, Debug, PartialEq, Eq, Error)]
pub enum StateFault {
    /// The address of the set that is there from the start is the terminal's own, or above 253.
    #[error("no working set can have this address")]
    Owner,
    /// The pool of the set that is there from the start is not acceptable.
    #[error("the terminal refuses this pool, so no log can be replayed with it")]
    Pool,
    /// The log could not be replayed to its end.
    #[error("{0}")]
    Replay(ReplayFault),
    /// No working set is shown at the end of the log.
    #[error("no mask is shown at its end")]
    NothingShown,
    /// An allocation was refused.
    #[error("out of memory")]
    Memory,
}

impl From<AllocError> for StateFault {
    ghost from_gives = { λ _ fault. fault ≡ Memory };

    fn from(_error: AllocError) -> StateFault {
        StateFault::Memory
    }
}

impl From<ReplayFault> for StateFault {
    ghost from_gives = { λ _ fault. fault ≢ NothingShown };

    fn from(fault: ReplayFault) -> StateFault {
        match fault {
            ReplayFault::Memory => StateFault::Memory,
            ReplayFault::Read | ReplayFault::Write | ReplayFault::TooLong => {
                StateFault::Replay(fault)
            }
        }
    }
}

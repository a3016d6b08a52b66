//! The faults of a run after its words are read, and their lines.

ghost use Rattle.std.specs.Prelude.{◌≡◌};
ghost use Rattle.vt_program.specs.declared.fault.Fault.TheVariants.{Memory};
ghost use Rattle.vt_program.specs.Runs.{fault_line};

use crate::pool_sentences::Named;
use std::alloc::AllocError;
use std::{fmt, io};
use vt_logs::ReplayFault;
use vt_pool::PoolFault;

/// A fault of a replay or of a report.
#[derive(Drop)]
pub(crate) enum Fault<'a> {
    File {
        path: &'a str,
        cause: io::Error,
    },
    Pool(PoolFault),
    Refused {
        why: vt_verify::Refusal,
        named: Named,
    },
    Memory,
    Replay {
        why: ReplayFault,
        cause: Option<io::Error>,
    },
}

impl fmt::Display for Fault<'_> {
    ghost output = { fault_line };

    fn fmt<W: fmt::Write>(&self, f: &mut fmt::Formatter<W>) -> fmt::Result {
        match self {
            Fault::File { path, cause } => write!(f, "{path}: {cause}"),
            Fault::Pool(fault) => write!(f, "{fault}"),
            Fault::Refused { why, named: _ } => write!(f, "{why}"),
            Fault::Memory => write!(f, "out of memory"),
            Fault::Replay { why, cause: _ } => write!(f, "{why}"),
        }
    }
}

impl From<AllocError> for Fault<'_> {
    ghost from_gives = { λ _ fault. fault ≡ Memory };

    fn from(_error: AllocError) -> Self {
        Fault::Memory
    }
}

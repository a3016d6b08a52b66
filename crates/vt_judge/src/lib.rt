//! Judges the bytes of an object pool: the accepted pool, or the first fault or refusal (ISO 11783-6; docs/PROFILE.md, "Pools
//! and faults", "Verification of a pool").
//!
//! `judge` returns the pool, or why it is `NotAccepted`. The rules are in vt_verify, and the faults of records in vt_records.
//! It starts no terminal. Come here to ask whether bytes are a pool that a terminal accepts.
#![tactic(auto)]

ghost use Rattle.std.specs.Prelude.{◌≡◌, IfOk, IfErr};
ghost use Rattle.vt_judge.specs.Judgements.{IsAcceptedPool, IsNotAccepted, wants_memory};

use std::alloc::Global;
use thiserror::Error;
use vt_pool::{PoolFault, read_pool};
use vt_verify::{Accepted, Refusal, verify_owned};

/// Why bytes are not an accepted pool.
#[derive(Debug, Drop, Error)]
pub enum NotAccepted {
    /// A record is faulty.
    #[error(transparent)]
    Fault(PoolFault),
    /// The objects break a rule.
    #[error(transparent)]
    Refused(Refusal),
}

/// Reads a pool and verifies it. Keeps nothing after an error.
pub fn judge(alloc: Global, bytes: &[u8]) -> Result<Accepted, NotAccepted>
    ensures accepted { IfOk result (IsAcceptedPool bytes.now) }
    ensures not_accepted { IfErr result (IsNotAccepted bytes.now) }
{
    match read_pool(alloc, bytes) {
        Ok(pool) => match verify_owned(alloc, pool) {
            Ok(accepted) => Ok(accepted),
            Err(refusal) => Err(NotAccepted::Refused(refusal)),
        },
        Err(fault) => Err(NotAccepted::Fault(fault)),
    }
}

impl NotAccepted {
    /// Whether memory was refused. The bytes may then still be a pool that meets all rules.
    pub fn wants_memory(&self) -> bool
        ensures { result ≡ wants_memory self.now }
    {
        match self {
            NotAccepted::Fault(PoolFault::OutOfMemory { .. }) => true,
            NotAccepted::Refused(Refusal::OutOfMemory) => true,
            _ => false,
        }
    }
}

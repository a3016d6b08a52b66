//! Verdicts on uploads.

use std::alloc::{AllocError, Global};
use std::fmt;
use vt_objects::{SortedStore, Store};
use vt_pool::{PoolFault, read_pool};
use vt_verify::{Accepted, Refusal, verify_owned, verify_update};

/// The verdict of a terminal on an upload.
#[derive(Drop)]
pub(crate) enum Verdict {
    /// The upload is accepted. These are the objects after it.
    Accepted(SortedStore),
    /// The bytes are no pool.
    Faulty(PoolFault),
    /// The pool breaks a rule.
    Refused(Refusal),
}

impl Verdict {
    /// The verdict on the bytes of an upload to a set that has no pool, or on an update of its objects.
    pub(crate) fn of_upload(
        alloc: Global,
        bytes: &[u8],
        objects: Option<&SortedStore>,
    ) -> Result<Verdict, AllocError> {
        let pool = match read_pool(alloc, bytes) {
            Ok(pool) => pool,
            Err(PoolFault::OutOfMemory { .. }) => return Err(AllocError),
            Err(fault) => return Ok(Verdict::Faulty(fault)),
        };
        let verified = match objects {
            Some(objects) => verify_update(alloc, objects, &pool),
            None => verify_owned(alloc, pool),
        };
        match verified {
            Ok(accepted) => Ok(Verdict::of_accepted(accepted)),
            Err(Refusal::OutOfMemory) => Err(AllocError),
            Err(refusal) => Ok(Verdict::Refused(refusal)),
        }
    }

    fn of_accepted(accepted: Accepted) -> Verdict {
        Verdict::Accepted(accepted.into_parts().objects)
    }
}

impl fmt::Display for Verdict {
    fn fmt<W: fmt::Write>(&self, f: &mut fmt::Formatter<W>) -> fmt::Result {
        match self {
            Verdict::Accepted(objects) => write!(f, "accepted {} objects", objects.count()),
            Verdict::Faulty(fault) => write!(f, "{fault}"),
            Verdict::Refused(refusal) => write!(f, "{refusal}"),
        }
    }
}

//! The report of an object pool as text.

ghost use Rattle.std.specs.Prelude.{◌≡◌, false, IfOk};
ghost use Rattle.vt_judge.specs.Judgements.{wants_memory};
ghost use Rattle.check_verdicts.specs.Texts.{IsReportOf, line_of};

use std::alloc::{AllocError, Global};
use vt_judge::{NotAccepted, judge};
use vt_pool::PoolFault;
use vt_verify::Refusal;

/// The report of a pool, or the line of its fault or refusal.
pub(crate) fn report(alloc: Global, bytes: &[u8]) -> Result<Vec<u8>, AllocError>
    ensures { IfOk result (λ text. IsReportOf bytes.now text.items) }
{
    match judge(alloc, bytes) {
        Ok(pool) => {
            let mut text = Vec::new(alloc);
            pool.report(&mut text)?;
            Ok(text)
        }
        Err(why) => line_of(alloc, &why),
    }
}

/// The line of a fault or a refusal. Refused memory has no line.
fn line_of(alloc: Global, why: &NotAccepted) -> Result<Vec<u8>, AllocError>
    ensures line { IfOk result (λ text. text.items ≡ line_of why.now) }
    ensures memory { IfOk result (λ _. wants_memory why.now ≡ false) }
{
    match why {
        NotAccepted::Fault(PoolFault::OutOfMemory { .. }) => Err(AllocError),
        NotAccepted::Refused(Refusal::OutOfMemory) => Err(AllocError),
        NotAccepted::Fault(fault) => Ok(format!(in alloc; "{fault}\n")?.into_bytes()),
        NotAccepted::Refused(refusal) => Ok(format!(in alloc; "{refusal}\n")?.into_bytes()),
    }
}

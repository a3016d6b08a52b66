//! The end of an upload: its judgement and the reply.

ghost use Rattle.std.specs.Prelude.{◌≡◌, [], ◌∷◌, ◌++◌, None, Some, IfOk, List, ℕ, slice_index};
ghost use Rattle.std.specs.Option.{option_map};
ghost use Rattle.vt_pool.specs.Pools.{PoolEntry, IsWantOfMemory};
ghost use Rattle.vt_verify.specs.Rules as rules;
ghost use Rattle.vt_server.specs.message.Judgements.{IsJudgement, end_of};
ghost use Rattle.vt_server.specs.message.Verdicts as transfers;
ghost use Rattle.vt_server.specs.message.Verdicts.{IsPool};

use crate::OutOfMemory;
use crate::upload_end::{BrokenRule, UploadEnd, first_of_circle};
use byteorder::{ByteOrder, LittleEndian};
use std::alloc::{AllocError, Global};
use vt_can::assigned::END_OF_POOL;
use vt_machine::{Live, Replacement};
use vt_objects::{ObjectId, SortedStore};
use vt_pool::{Pool, PoolFault, Reading};
use vt_verify::{Refusal, verify_owned, verify_update};

/// The judgement of a finished upload.
#[derive(Drop)]
pub(crate) enum Judgement {
    /// The new pool of the set.
    Accepted(Box<Live<SortedStore>>),
    /// The objects that replace some of the set's pool.
    Replaced(Replacement),
    /// The reply that refuses the upload, and why.
    Refused { reply: [u8; 8], end: UploadEnd },
}

impl Judgement {
    /// How the upload ends by the judgement.
    pub(crate) fn end(&self) -> UploadEnd
        ensures { result ≡ end_of self.now }
    {
        match self {
            Judgement::Accepted(_) | Judgement::Replaced(_) => UploadEnd::Accepted,
            Judgement::Refused { end, .. } => *end,
        }
    }
}

/// The reply to an accepted upload.
pub(crate) const ACCEPTED: [u8; 8] = [END_OF_POOL, 0, 0xFF, 0xFF, 0xFF, 0xFF, 0, 0xFF];

/// Judges the bytes of an upload, as an update if the set has a pool. Changes nothing.
pub(crate) fn judge(
    alloc: Global,
    pool: Option<&Live<SortedStore>>,
    transfer: &Reading,
) -> Result<Judgement, OutOfMemory>
    ensures { IfOk result (IsJudgement (record { pool = option_map (λ live. live.now) pool.entry; transfer = transfer.now.bytes })) }
{
    let read = match transfer.pool() {
        Ok(read) => read,
        Err(fault) => {
            let reply = fault_reply(fault)?;
            let end = UploadEnd::Faulty(fault);
            return Ok(Judgement::Refused { reply, end });
        }
    };
    match pool {
        None => judge_first(alloc, read),
        Some(live) => judge_update(alloc, live, &read),
    }
}

/// Judges the first pool of a set.
fn judge_first(alloc: Global, read: Pool<'_>) -> Result<Judgement, OutOfMemory>
    ensures { (bytes : List ℕ) → IsPool bytes read.entry → IfOk result (IsJudgement (record { pool = None; transfer = bytes })) }
{
    match verify_owned(alloc, read) {
        Ok(accepted) => {
            let live = Live::from_accepted(alloc, accepted)?;
            let pool = Box::new(alloc, live)?;
            Ok(Judgement::Accepted(pool))
        }
        Err(refusal) => {
            let reply = refusal_reply(&refusal)?;
            let end = UploadEnd::Refused(BrokenRule::of(&refusal));
            Ok(Judgement::Refused { reply, end })
        }
    }
}

/// Judges an update of a pool.
fn judge_update(
    alloc: Global,
    live: &Live<SortedStore>,
    read: &Pool<'_>,
) -> Result<Judgement, OutOfMemory>
    ensures { (bytes : List ℕ) → IsPool bytes read.now → IfOk result (IsJudgement (record { pool = Some live.now; transfer = bytes })) }
{
    if let Some(replacement) = live.replacement(read)? {
        return Ok(Judgement::Replaced(replacement));
    }
    match verify_update(alloc, live.store(), read) {
        Ok(accepted) => {
            let live = live.renew_from(accepted)?;
            let pool = Box::new(alloc, live)?;
            Ok(Judgement::Accepted(pool))
        }
        Err(refusal) => {
            let reply = refusal_reply(&refusal)?;
            let end = UploadEnd::Refused(BrokenRule::of(&refusal));
            Ok(Judgement::Refused { reply, end })
        }
    }
}

/// The reply to bytes that are not a pool.
fn fault_reply(fault: PoolFault) -> Result<[u8; 8], OutOfMemory>
    ensures named { IfOk result (λ _. IsWantOfMemory fault → ⊥) }
    ensures reply { IfOk result (λ reply. reply ≡ transfers.end_reply (transfers.Faulty fault)) }
{
    let code = match fault {
        PoolFault::OutOfMemory { .. } => return Err(AllocError),
        PoolFault::UnknownType { .. } | PoolFault::LeftOutType { .. } => 1,
        PoolFault::Truncated { .. }
        | PoolFault::Scale { .. }
        | PoolFault::Decimals { .. }
        | PoolFault::NullId { .. } => 4,
    };
    Ok(refused(ObjectId::NULL, ObjectId::NULL, code))
}

/// The reply to a refused pool: the IDs in the refusal, and the code of the cause.
fn refusal_reply(refusal: &Refusal) -> Result<[u8; 8], OutOfMemory>
    ensures named { IfOk result (λ _. rules.IsWantOfMemory refusal.now → ⊥) }
    ensures reply { IfOk result (λ reply. reply ≡ transfers.end_reply (transfers.Refuses refusal.now)) }
{
    Ok(match refusal {
        Refusal::OutOfMemory => return Err(AllocError),
        Refusal::Missing { parent, id } | Refusal::MacroMissing { parent, id } => {
            refused(*parent, *id, 2)
        }
        Refusal::WrongKind { parent, id } | Refusal::MacroKind { parent, id } => {
            refused(*parent, *id, 4)
        }
        Refusal::MacroBytes { id } | Refusal::OverBudget { id } => refused(ObjectId::NULL, *id, 4),
        Refusal::MacroCommand { id, .. } | Refusal::MacroValue { id, .. } => refused(
            ObjectId::NULL,
            *id,
            4,
        ),
        Refusal::MacroCircle { path } => refused(
            ObjectId::NULL,
            first_of_circle(path.as_slice()),
            4,
        ),
        Refusal::NoWorkingSet | Refusal::TwoWorkingSets | Refusal::TooDeep { .. } => {
            refused(ObjectId::NULL, ObjectId::NULL, 4)
        }
    })
}

fn refused(parent: ObjectId, object: ObjectId, code: u8) -> [u8; 8]
    ensures { result ≡ transfers.refused_pool parent object code }
{
    let mut bytes = [END_OF_POOL, 1, 0, 0, 0, 0, code, 0xFF];
    LittleEndian::write_u16(&mut bytes[2..4], parent.raw());
    LittleEndian::write_u16(&mut bytes[4..6], object.raw());
    bytes
}

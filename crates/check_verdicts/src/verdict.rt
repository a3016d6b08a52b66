//! The verdict on an object pool, in numbers.

ghost use Rattle.std.specs.Prelude.{◌≡◌};
ghost use Rattle.check_verdicts.specs.Verdicts.{Judges, fault_verdict, naming, no_memory, placed, refusal_verdict, verdict_of};

use std::alloc::Global;
use vt_judge::{NotAccepted, judge};
use vt_objects::ObjectId;
use vt_pool::PoolFault;
use vt_verify::Refusal;

/// A verdict on an object pool.
#[repr(C)]
#[derive(Clone, Copy)]
pub struct VtVerdict {
    /// 0 for an accepted pool, 1 for the fault of a record, 2 for a refusal, 3 if memory was refused.
    pub kind: u32,
    /// The number of the fault or the refusal, or else 0.
    pub number: u32,
    /// The offset of a fault in the pool's bytes, or the offset of a command in its macro, or else 0.
    pub at: u64,
    /// The ID of the object that the refusal names, or 65535.
    pub object: u32,
    /// The ID of the other object that the refusal names, or 65535.
    pub other: u32,
    /// The number of objects of an accepted pool, or else 0.
    pub objects: u64,
}

/// No object.
pub(crate) const NO_OBJECT: u32 = 65_535;

/// Judges a pool.
pub(crate) fn judged(alloc: Global, bytes: &[u8]) -> VtVerdict
    ensures { Judges bytes.now result }
{
    match judge(alloc, bytes) {
        Ok(pool) => VtVerdict {
            kind: 0,
            number: 0,
            at: 0,
            object: NO_OBJECT,
            other: NO_OBJECT,
            objects: pool.objects().len() as u64,
        },
        Err(why) => verdict_of(&why),
    }
}

fn verdict_of(why: &NotAccepted) -> VtVerdict
    ensures { result ≡ verdict_of why.now }
{
    match why {
        NotAccepted::Fault(fault) => fault_verdict(fault),
        NotAccepted::Refused(refusal) => refusal_verdict(refusal),
    }
}

pub(crate) fn fault_verdict(fault: &PoolFault) -> VtVerdict
    ensures { result ≡ fault_verdict fault.now }
{
    match fault {
        PoolFault::Truncated { at } => placed(1, 1, *at),
        PoolFault::UnknownType { at } => placed(1, 2, *at),
        PoolFault::LeftOutType { at } => placed(1, 3, *at),
        PoolFault::Scale { at } => placed(1, 4, *at),
        PoolFault::Decimals { at } => placed(1, 5, *at),
        PoolFault::OutOfMemory { .. } => placed(3, 0, 0),
        PoolFault::NullId { at } => placed(1, 7, *at),
    }
}

fn refusal_verdict(refusal: &Refusal) -> VtVerdict
    ensures { result ≡ refusal_verdict refusal.now }
{
    match refusal {
        Refusal::NoWorkingSet => placed(2, 1, 0),
        Refusal::TwoWorkingSets => placed(2, 2, 0),
        Refusal::Missing { parent, id } => naming(3, 0, *parent, number(*id)),
        Refusal::WrongKind { parent, id } => naming(4, 0, *parent, number(*id)),
        Refusal::TooDeep { .. } => placed(2, 5, 0),
        Refusal::MacroBytes { id } => naming(6, 0, *id, NO_OBJECT),
        Refusal::MacroCommand { id, at } => naming(7, *at, *id, NO_OBJECT),
        Refusal::MacroMissing { parent, id } => naming(8, 0, *parent, number(*id)),
        Refusal::MacroKind { parent, id } => naming(9, 0, *parent, number(*id)),
        Refusal::MacroValue { id, at } => naming(10, *at, *id, NO_OBJECT),
        Refusal::MacroCircle { .. } => placed(2, 11, 0),
        Refusal::OverBudget { id } => naming(12, 0, *id, NO_OBJECT),
        Refusal::OutOfMemory => placed(3, 0, 0),
    }
}

pub(crate) fn number(id: ObjectId) -> u32
    ensures { result ≡ id }
{
    u32::from(id.raw())
}

/// A verdict that names no object.
pub(crate) fn placed(kind: u32, number: u32, at: usize) -> VtVerdict
    ensures { result ≡ placed kind number at }
{
    VtVerdict {
        kind,
        number,
        at: at as u64,
        object: NO_OBJECT,
        other: NO_OBJECT,
        objects: 0,
    }
}

/// A refusal that names an object, and perhaps another.
pub(crate) fn naming(number: u32, at: usize, object: ObjectId, other: u32) -> VtVerdict
    ensures { result ≡ naming number at object other }
{
    VtVerdict {
        kind: 2,
        number,
        at: at as u64,
        object: u32::from(object.raw()),
        other,
        objects: 0,
    }
}

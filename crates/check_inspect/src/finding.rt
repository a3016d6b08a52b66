//! Findings: the faults of a pool.

ghost use Rattle.std.specs.Prelude.{◌≡◌};
ghost use Rattle.check_inspect.specs.Places.{byte_of, reference_place, place_of};

use arrayvec::ArrayVec;
use vt_objects::{ObjectId, Place};
use vt_pool::PoolFault;
use vt_verify::{Chain, Reference};

/// The position of a reference in its object.
#[derive(Clone, Copy, PartialEq, Eq)]
pub enum Spot {
    /// A field or a list entry.
    Slot(Place),
    /// The value of the object pointer that a field or a list entry refers to.
    Through { place: Place, pointer: ObjectId },
    /// A macro entry: its index in the object's list, from 0, and its event.
    Entry { index: usize, event: u8 },
    /// A command of a macro: its offset in the macro's bytes, and its function.
    Command { at: usize, function: u8 },
}

/// A reference and its position in its object.
#[derive(Clone, Copy, PartialEq, Eq)]
pub struct ReferenceAt {
    /// The object, the referenced ID and the allowed kinds.
    pub reference: Reference,
    /// The position in the object.
    pub spot: Spot,
}

/// A fault of a pool: a fault of a record, or a rule of a pool with one of its culprits.
#[derive(Drop)]
pub enum Finding {
    /// A record has a fault; `at` in the fault is an index of the pool's bytes.
    Record(PoolFault),
    /// Rule 1: no object is a working set.
    NoWorkingSet,
    /// Rule 2: this object is a working set, and so is one with a lower ID.
    TwoWorkingSets {
        id: ObjectId,
    },
    /// Rule 3: a slot refers to a missing object, or is NULL where NULL is not allowed.
    Missing(ReferenceAt),
    /// Rule 4: a slot refers to an object of a kind that is not allowed, or to a pointer to such an object.
    WrongKind(ReferenceAt),
    /// Rule 5: a chain with one inclusion too many; each ID includes the next.
    TooDeep {
        chain: Chain,
    },
    /// Rule 6: the bytes of a macro end inside a command.
    MacroBytes {
        id: ObjectId,
    },
    /// Rule 7: a macro has a command that is not allowed in macros, at an offset of its bytes.
    MacroCommand {
        id: ObjectId,
        at: usize,
        function: u8,
    },
    /// Rule 8: a macro entry or a command of a macro refers to a missing object, or is NULL where NULL is not allowed.
    MacroMissing(ReferenceAt),
    /// Rule 9: a macro entry or a command of a macro refers to an object of a kind that is not allowed.
    MacroKind(ReferenceAt),
    /// Rule 10: the command at an offset of a macro's bytes changes an attribute that its object does not have.
    MacroValue {
        id: ObjectId,
        at: usize,
        object: ObjectId,
        attribute: u8,
    },
    /// Rule 11: a circle of macros. Each triggers the next, and the last one the first.
    MacroCircle {
        path: ArrayVec<u8, 256>,
    },
    /// Rule 12: a macro or an event of an object can cost too many steps.
    OverBudget {
        id: ObjectId,
        event: Option<u8>,
    },
}

/// The place of a finding.
#[derive(Clone, Copy, PartialEq, Eq)]
pub enum FindingPlace {
    /// A byte of the pool.
    Byte(usize),
    /// An object.
    Object(ObjectId),
    /// A command of a macro, at an offset of the macro's bytes.
    Command { id: ObjectId, at: usize },
}

impl ReferenceAt {
    fn place(&self) -> FindingPlace
        ensures { result ≡ reference_place self.now }
    {
        let id = self.reference.parent;
        match self.spot {
            Spot::Command { at, .. } => FindingPlace::Command { id, at },
            _ => FindingPlace::Object(id),
        }
    }
}

impl Finding {
    /// The place of a finding. The place of a chain or a circle is that of its first object. `None` if no object is a working set.
    pub fn place(&self) -> Option<FindingPlace>
        ensures { result ≡ place_of self.now }
    {
        match self {
            Finding::Record(fault) => Some(FindingPlace::Byte(byte_of(*fault))),
            Finding::NoWorkingSet => None,
            Finding::TwoWorkingSets { id } | Finding::MacroBytes { id } => {
                Some(FindingPlace::Object(*id))
            }
            Finding::OverBudget { id, .. } => Some(FindingPlace::Object(*id)),
            Finding::Missing(found)
            | Finding::WrongKind(found)
            | Finding::MacroMissing(found)
            | Finding::MacroKind(found) => Some(found.place()),
            Finding::TooDeep { chain } => Some(FindingPlace::Object(*chain.first()?)),
            Finding::MacroCommand { id, at, .. } | Finding::MacroValue { id, at, .. } => {
                Some(FindingPlace::Command { id: *id, at: *at })
            }
            Finding::MacroCircle { path } => Some(FindingPlace::Object(ObjectId::from_raw(u16::from(
                *path.first()?,
            )))),
        }
    }
}

/// The byte of a fault.
fn byte_of(fault: PoolFault) -> usize
    ensures { result ≡ byte_of fault }
{
    match fault {
        PoolFault::Truncated { at }
        | PoolFault::UnknownType { at }
        | PoolFault::LeftOutType { at }
        | PoolFault::Scale { at }
        | PoolFault::Decimals { at }
        | PoolFault::OutOfMemory { at }
        | PoolFault::NullId { at } => at,
    }
}

//! How the upload of a set ended (docs/PROFILE.md, "End of Object Pool (12)").

ghost use Rattle.std.specs.Prelude.{◌≡◌, slice_index};
ghost use Rattle.vt_server.specs.message.UploadEnds.{broken_rule, naming, naming_none};

use vt_objects::ObjectId;
use vt_pool::PoolFault;
use vt_verify::Refusal;

/// How the upload of a set ended.
#[derive(Clone, Copy, PartialEq, Eq)]
pub enum UploadEnd {
    /// The pool is accepted: as the first one of the set, or as an update.
    Accepted,
    /// A record of the upload has a fault.
    Faulty(PoolFault),
    /// The objects break a rule.
    Refused(BrokenRule),
}

/// A rule that the objects of an upload break. docs/PROFILE.md, "Verification of a pool".
#[derive(Clone, Copy, PartialEq, Eq)]
pub struct BrokenRule {
    /// The number of the rule, 1 to 12. A refusal of memory is reported as an error, never as a rule.
    pub rule: u8,
    /// For the rules 7 and 10, the offset of the command in its macro; otherwise 0.
    pub at: usize,
    /// The object that breaks the rule, or the first one of a chain or a circle. NULL if the rule names no object.
    pub object: ObjectId,
    /// For the rules 3, 4, 8 and 9, the object to which it refers; otherwise NULL.
    pub other: ObjectId,
}

impl BrokenRule {
    /// The rule of a refusal, in numbers.
    pub(crate) fn of(refusal: &Refusal) -> BrokenRule
        ensures { result ≡ broken_rule refusal.now }
    {
        match refusal {
            Refusal::NoWorkingSet => naming_none(1),
            Refusal::TwoWorkingSets => naming_none(2),
            Refusal::Missing { parent, id } => naming(3, 0, *parent, *id),
            Refusal::WrongKind { parent, id } => naming(4, 0, *parent, *id),
            Refusal::TooDeep { chain } => naming(
                5,
                0,
                first_of_chain(chain.as_slice()),
                ObjectId::NULL,
            ),
            Refusal::MacroBytes { id } => naming(6, 0, *id, ObjectId::NULL),
            Refusal::MacroCommand { id, at } => naming(7, *at, *id, ObjectId::NULL),
            Refusal::MacroMissing { parent, id } => naming(8, 0, *parent, *id),
            Refusal::MacroKind { parent, id } => naming(9, 0, *parent, *id),
            Refusal::MacroValue { id, at } => naming(10, *at, *id, ObjectId::NULL),
            Refusal::MacroCircle { path } => naming(
                11,
                0,
                first_of_circle(path.as_slice()),
                ObjectId::NULL,
            ),
            Refusal::OverBudget { id } => naming(12, 0, *id, ObjectId::NULL),
            Refusal::OutOfMemory => naming_none(0),
        }
    }
}

/// A rule that names no object.
fn naming_none(rule: u8) -> BrokenRule
    ensures { result ≡ naming_none rule }
{
    naming(rule, 0, ObjectId::NULL, ObjectId::NULL)
}

/// A rule that names an object, and perhaps another.
fn naming(rule: u8, at: usize, object: ObjectId, other: ObjectId) -> BrokenRule
    ensures { result ≡ naming rule at object other }
{
    BrokenRule {
        rule,
        at,
        object,
        other,
    }
}

/// The first object of a chain.
fn first_of_chain(chain: &[ObjectId]) -> ObjectId
    ensures { result ≡ slice_index chain.now 0 }
{
    match chain.first() {
        Some(id) => *id,
        None => ObjectId::from_raw(0),
    }
}

/// The first macro of a circle.
pub(crate) fn first_of_circle(path: &[u8]) -> ObjectId
    ensures { result ≡ slice_index path.now 0 }
{
    match path.first() {
        Some(id) => ObjectId::from_raw(u16::from(*id)),
        None => ObjectId::from_raw(0),
    }
}

//! The reasons to refuse a pool.

ghost use Rattle.std.specs.Prelude.{◌≡◌, Some};
ghost use Rattle.vt_verify.specs.declared.refusal.Refusal.TheVariants as refusals;
ghost use Rattle.vt_verify.specs.Reports.{numbers, refusal_text};

use arrayvec::ArrayVec;
use std::alloc::AllocError;
use std::fmt;
use vt_chains::Chain;
use vt_objects::ObjectId;

/// The first rule that a pool breaks, and its first culprit by rising ID, or some chain or circle (docs/PROFILE.md,
/// "Verification of a pool"). Its `Display` is the line of its report; `OutOfMemory` has none in a report.
#[derive(Debug, Drop)]
pub enum Refusal {
    /// No object is a working set.
    NoWorkingSet,
    /// More than one object is a working set.
    TwoWorkingSets,
    /// A slot of `parent` refers to a missing object, or is NULL although NULL is not allowed there.
    Missing { parent: ObjectId, id: ObjectId },
    /// A slot of `parent` refers to an object of a kind that is not allowed, or to a pointer to such an object; `id` is
    /// then the pointer's value.
    WrongKind { parent: ObjectId, id: ObjectId },
    /// A chain with one inclusion too many: each ID includes the next.
    TooDeep { chain: Chain },
    /// The bytes of a macro end inside a command.
    MacroBytes { id: ObjectId },
    /// A macro has a command that is not allowed in macros; `at` is its offset in the macro's bytes.
    MacroCommand { id: ObjectId, at: usize },
    /// A macro entry or a command of `parent` refers to a missing object, or is NULL although NULL is not allowed
    /// there.
    MacroMissing { parent: ObjectId, id: ObjectId },
    /// A macro entry or a command of `parent` refers to an object of a kind that is not allowed.
    MacroKind { parent: ObjectId, id: ObjectId },
    /// A macro changes an attribute that its object does not have; `at` is the command's offset in the macro's bytes.
    MacroValue { id: ObjectId, at: usize },
    /// A circle: each macro triggers the next, and the last one the first. The first is the least macro on any circle.
    MacroCircle { path: ArrayVec<u8, 256> },
    /// A macro can cost too many steps, or else an event of an object: `id` is the macro or the object.
    OverBudget { id: ObjectId },
    /// An allocation was refused.
    OutOfMemory,
}

impl From<AllocError> for Refusal {
    ghost from_gives = { λ _ refusal. refusal ≡ refusals.OutOfMemory };

    fn from(_error: AllocError) -> Refusal {
        Refusal::OutOfMemory
    }
}

impl fmt::Display for Refusal {
    ghost output = { λ refusal. Some (refusal_text refusal) };

    fn fmt<W: fmt::Write>(&self, f: &mut fmt::Formatter<W>) -> fmt::Result {
        match self {
            Refusal::NoWorkingSet => write!(f, "refused 1 NoWorkingSet"),
            Refusal::TwoWorkingSets => write!(f, "refused 2 TwoWorkingSets"),
            Refusal::Missing { parent, id } => {
                write!(f, "refused 3 Missing {} {}", parent.raw(), id.raw())
            }
            Refusal::WrongKind { parent, id } => {
                write!(f, "refused 4 WrongKind {} {}", parent.raw(), id.raw())
            }
            Refusal::TooDeep { chain } => {
                let ids = Ids {
                    ids: chain.as_slice(),
                };
                write!(f, "refused 5 TooDeep{ids}")
            }
            Refusal::MacroBytes { id } => write!(f, "refused 6 MacroBytes {}", id.raw()),
            Refusal::MacroCommand { id, at } => {
                write!(f, "refused 7 MacroCommand {} {at}", id.raw())
            }
            Refusal::MacroMissing { parent, id } => {
                write!(f, "refused 8 MacroMissing {} {}", parent.raw(), id.raw())
            }
            Refusal::MacroKind { parent, id } => {
                write!(f, "refused 9 MacroKind {} {}", parent.raw(), id.raw())
            }
            Refusal::MacroValue { id, at } => write!(f, "refused 10 MacroValue {} {at}", id.raw()),
            Refusal::MacroCircle { path } => {
                let macros = Macros {
                    ids: path.as_slice(),
                };
                write!(f, "refused 11 MacroCircle{macros}")
            }
            Refusal::OverBudget { id } => write!(f, "refused 12 OverBudget {}", id.raw()),
            Refusal::OutOfMemory => write!(f, "out of memory"),
        }
    }
}

/// IDs, each after a space.
#[derive(Drop)]
struct Ids<'a> {
    ids: &'a [ObjectId],
}

impl<'a> fmt::Display for Ids<'a> {
    ghost output = { λ list. Some (numbers list.ids.now) };

    fn fmt<W: fmt::Write>(&self, f: &mut fmt::Formatter<W>) -> fmt::Result {
        for id in self.ids {
            write!(f, " {}", id.raw())?;
        }
        Ok(())
    }
}

/// The IDs of macros, each after a space.
#[derive(Drop)]
struct Macros<'a> {
    ids: &'a [u8],
}

impl<'a> fmt::Display for Macros<'a> {
    ghost output = { λ list. Some (numbers list.ids.now) };

    fn fmt<W: fmt::Write>(&self, f: &mut fmt::Formatter<W>) -> fmt::Result {
        for id in self.ids {
            write!(f, " {id}")?;
        }
        Ok(())
    }
}

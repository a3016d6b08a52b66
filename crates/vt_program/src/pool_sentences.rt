//! Sentences on object pools: the place in the file or the objects, the cause, and the number under which docs/POOLS.md has the cure.

use std::fmt;
use vt_kinds::{Kind, ObjectId};
use vt_records::PoolFault;
use vt_verify::Refusal;

/// The kinds of the objects in a refusal, if the pool has these objects.
#[derive(Clone, Copy, Default, PartialEq, Eq)]
pub struct Named {
    /// The kind of the parent, or of the only object.
    pub parent: Option<Kind>,
    /// The kind of the object that the parent refers to.
    pub object: Option<Kind>,
}

/// The sentence on a fault of an object pool.
#[derive(Drop)]
pub(crate) struct FaultSentence<'a> {
    pub(crate) fault: &'a PoolFault,
    /// Whether a report was asked for, so that the file may be a log by mistake.
    pub(crate) in_report: bool,
}

impl fmt::Display for FaultSentence<'_> {
    fn fmt<W: fmt::Write>(&self, f: &mut fmt::Formatter<W>) -> fmt::Result {
        match self.fault {
            PoolFault::Truncated { at } => {
                write!(
                    f,
                    "the bytes end inside the record that begins at byte {at} (fault 1; docs/POOLS.md)"
                )
            }
            PoolFault::UnknownType { at } => {
                let fault = "has a type above 33, which VT version 3 does not have";
                write_fault(f, "record", *at, fault, 2)?;
                write_log_hint(f, self.in_report && *at == 0)
            }
            PoolFault::LeftOutType { at } => {
                let fault = "is an auxiliary function or input, which this terminal does not have";
                write_fault(f, "record", *at, fault, 3)?;
                write_log_hint(f, self.in_report && *at == 0)
            }
            PoolFault::Scale { at } => {
                write_fault(f, "scale", *at, "is none of 1, 0.1, 0.01 and 0.001", 4)
            }
            PoolFault::Decimals { at } => {
                write_fault(f, "number of decimals", *at, "is above 7", 5)
            }
            PoolFault::OutOfMemory { at } => {
                write!(
                    f,
                    "the memory for the record at byte {at} was refused (fault 6; docs/POOLS.md)"
                )
            }
            PoolFault::NullId { at } => {
                write_fault(
                    f,
                    "record",
                    *at,
                    "has the ID 65535, which means no object",
                    7,
                )
            }
        }
    }
}

/// Writes the fault of a record or of a field, by its offset.
fn write_fault<W: fmt::Write>(
    f: &mut fmt::Formatter<W>,
    part: &str,
    at: usize,
    fault: &str,
    number: u8,
) -> fmt::Result {
    write!(
        f,
        "the {part} at byte {at} {fault} (fault {number}; docs/POOLS.md)"
    )
}

/// Writes that the file may be a log, if that is likely.
fn write_log_hint<W: fmt::Write>(f: &mut fmt::Formatter<W>, is_likely: bool) -> fmt::Result {
    if is_likely {
        write!(f, "; if it is a log, leave out --report")?;
    }
    Ok(())
}

/// The sentence on a refusal of an object pool, with the kinds of its objects.
#[derive(Drop)]
pub(crate) struct RefusalSentence<'a> {
    pub(crate) refusal: &'a Refusal,
    pub(crate) named: Named,
}

impl fmt::Display for RefusalSentence<'_> {
    fn fmt<W: fmt::Write>(&self, f: &mut fmt::Formatter<W>) -> fmt::Result {
        match self.refusal {
            Refusal::NoWorkingSet => {
                write!(f, "no object is a Working Set (refusal 1; docs/POOLS.md)")
            }
            Refusal::TwoWorkingSets => {
                write!(
                    f,
                    "more than one object is a Working Set (refusal 2; docs/POOLS.md)"
                )
            }
            Refusal::Missing { parent, id } => self.write_missing(f, *parent, "names", *id, 3),
            Refusal::WrongKind { parent, id } => self.write_wrong_kind(f, *parent, *id),
            Refusal::TooDeep { chain } => write_chain(f, chain.as_slice()),
            Refusal::MacroBytes { id } => {
                write!(
                    f,
                    "the bytes of the Macro {} end inside a command (refusal 6; docs/POOLS.md)",
                    id.raw()
                )
            }
            Refusal::MacroCommand { id, at } => {
                write_command(f, *id, *at, "is not allowed in a macro", 7)
            }
            Refusal::MacroMissing { parent, id } => {
                self.write_missing(f, *parent, self.names(), *id, 8)
            }
            Refusal::MacroKind { parent, id } => self.write_macro_kind(f, *parent, *id),
            Refusal::MacroValue { id, at } => {
                let fault = "changes an attribute that its object does not have";
                write_command(f, *id, *at, fault, 10)
            }
            Refusal::MacroCircle { path } => write_circle(f, path.as_slice()),
            Refusal::OverBudget { id } => self.write_over_budget(f, *id),
            Refusal::OutOfMemory => write!(f, "the memory for its verification was refused"),
        }
    }
}

impl RefusalSentence<'_> {
    /// The parent, or the only object, with its kind.
    fn parent(&self, id: ObjectId) -> WithKind {
        let kind = self.named.parent;
        WithKind { kind, id }
    }

    /// The object that the parent names, with its kind.
    fn object(&self, id: ObjectId) -> WithKind {
        let kind = self.named.object;
        WithKind { kind, id }
    }

    /// Whether the parent is a macro.
    fn is_of_macro(&self) -> bool {
        self.named.parent == Some(Kind::Macro)
    }

    /// How the parent names the object: a macro by a command, and any other parent by an event.
    fn names(&self) -> &'static str {
        if self.is_of_macro() {
            "has a command that names"
        } else {
            "has an event that names"
        }
    }

    /// Writes that the parent names a missing object, or none where one is needed.
    fn write_missing<W: fmt::Write>(
        &self,
        f: &mut fmt::Formatter<W>,
        parent: ObjectId,
        names: &str,
        id: ObjectId,
        number: u8,
    ) -> fmt::Result {
        let parent = self.parent(parent);
        write!(f, "the {parent} {names} ")?;
        if id.is_null() {
            write!(f, "no object (65535) where one is needed")?;
        } else {
            write!(f, "object {}, which is not in the pool", id.raw())?;
        }
        write!(f, " (refusal {number}; docs/POOLS.md)")
    }

    /// Writes that the parent names an object of a kind that is not allowed.
    fn write_wrong_kind<W: fmt::Write>(
        &self,
        f: &mut fmt::Formatter<W>,
        parent: ObjectId,
        id: ObjectId,
    ) -> fmt::Result {
        let parent = self.parent(parent);
        let object = self.object(id);
        write!(
            f,
            "the {parent} names, itself or by a pointer, the {object}, a kind that is not allowed there (refusal 4; docs/POOLS.md)"
        )
    }

    /// Writes that an event of the parent names no macro, or a command of it an object of a kind that the command does not take.
    fn write_macro_kind<W: fmt::Write>(
        &self,
        f: &mut fmt::Formatter<W>,
        parent: ObjectId,
        id: ObjectId,
    ) -> fmt::Result {
        let parent = self.parent(parent);
        let object = self.object(id);
        let names = self.names();
        let fault = if self.is_of_macro() {
            "the command does not take"
        } else {
            "is no macro"
        };
        write!(
            f,
            "the {parent} {names} the {object}, which {fault} (refusal 9; docs/POOLS.md)"
        )
    }

    /// Writes that a macro, or an event of an object, can take too many steps.
    fn write_over_budget<W: fmt::Write>(
        &self,
        f: &mut fmt::Formatter<W>,
        id: ObjectId,
    ) -> fmt::Result {
        let object = self.parent(id);
        let part = if self.is_of_macro() {
            ""
        } else {
            " has an event that"
        };
        write!(
            f,
            "the {object}{part} can take more than 1000000 steps (refusal 12; docs/POOLS.md)"
        )
    }
}

/// An object by its kind and ID, or by its ID alone if the pool does not have it.
#[derive(Drop)]
struct WithKind {
    kind: Option<Kind>,
    id: ObjectId,
}

impl fmt::Display for WithKind {
    fn fmt<W: fmt::Write>(&self, f: &mut fmt::Formatter<W>) -> fmt::Result {
        match self.kind {
            Some(kind) => write!(f, "{kind} {}", self.id.raw()),
            None => write!(f, "object {}", self.id.raw()),
        }
    }
}

/// Writes the fault of a command of a macro, by the command's offset.
fn write_command<W: fmt::Write>(
    f: &mut fmt::Formatter<W>,
    id: ObjectId,
    at: usize,
    fault: &str,
    number: u8,
) -> fmt::Result {
    write!(
        f,
        "the command at byte {at} of the Macro {} {fault} (refusal {number}; docs/POOLS.md)",
        id.raw()
    )
}

/// Writes a chain of too many inclusions, or an object that includes itself.
fn write_chain<W: fmt::Write>(f: &mut fmt::Formatter<W>, ids: &[ObjectId]) -> fmt::Result {
    match (repeated(ids), ids.first()) {
        (Some(id), _) => write!(f, "object {} includes itself", id.raw())?,
        (None, Some(id)) => write!(f, "object {} includes objects more than 32 deep", id.raw())?,
        (None, None) => write!(f, "objects include each other more than 32 deep")?,
    }
    write!(f, " (refusal 5; docs/POOLS.md)")
}

/// The first ID that occurs twice, by its second occurrence.
fn repeated(ids: &[ObjectId]) -> Option<ObjectId> {
    for (index, id) in ids.iter().enumerate() {
        if ids[..index].contains(id) {
            return Some(*id);
        }
    }
    None
}

/// Writes a circle of macros: each triggers the next, and the last the first.
fn write_circle<W: fmt::Write>(f: &mut fmt::Formatter<W>, ids: &[u8]) -> fmt::Result {
    if let [id] = ids {
        return write!(
            f,
            "the Macro {id} triggers itself (refusal 11; docs/POOLS.md)"
        );
    }
    write!(f, "the macros")?;
    for id in ids {
        write!(f, " {id}")?;
    }
    write!(
        f,
        " trigger each other in a circle (refusal 11; docs/POOLS.md)"
    )
}

//! The inspection of a pool's bytes.

ghost use Rattle.std.specs.Prelude.{◌≡◌, ◌≤◌, ◌<◌, ◌+◌, ◌^◌, ◌++◌, length, map, IfOk, IfSome, IsSome};
ghost use Rattle.vt_stores.specs.Stores.{object_at};
ghost use Rattle.check_inspect.specs.Inspections.{IsInspection, unread_notes, passed_notes};
ghost use Rattle.check_inspect.specs.Places.{HasOffset, IsOffset, IsRecordOf, place_of};

use crate::finding::{Finding, FindingPlace};
use crate::passed::put_judged;
use crate::rules::put_findings;
use check_reading::{ObjectRecord, PassedRecord, PoolReading, ReplacedRecord, read_past_faults};
use std::alloc::{AllocError, Global};
use vt_objects::{ObjectId, SortedStore, Store};
use vt_pool::PoolFault;

/// What was not judged, and why.
#[derive(Clone, Copy, PartialEq, Eq)]
pub enum Note {
    /// The bytes from `at` on could not be read, so no object is listed as missing: rules 1, 3 and 8 were not judged. The other
    /// rules were judged only for the objects that were read.
    Unread { at: usize },
    /// The bytes of a macro end inside a command, so no triggers are known: rules 11 and 12 were not judged, and rules 7 to 10 were
    /// not judged for the commands of such a macro.
    UnknownTriggers,
    /// Macros trigger each other in a circle, so no costs are known: rule 12 was not judged.
    UnknownCosts,
    /// Records are passed over, so what they refer to is not known: no object is listed as unused, and no reference to one of them as missing.
    /// The other rules are judged as if these objects had no kind, no children and no macros.
    PassedOver,
}

/// The result of an inspection.
#[derive(Drop)]
pub struct Inspection {
    /// The objects in force.
    pub objects: SortedStore,
    /// The record of each object in force, by rising ID.
    pub records: Vec<ObjectRecord>,
    /// The replaced records, in the order of their bytes.
    pub replaced: Vec<ReplacedRecord>,
    /// The records of types that this terminal leaves out, in the order of their bytes. Each has a finding.
    pub passed: Vec<PassedRecord>,
    /// All findings: the faults of records first, then the broken rules in their order. Empty exactly if the pool is acceptable.
    pub findings: Vec<Finding>,
    /// What was not judged.
    pub notes: Vec<Note>,
}

impl Inspection {
    /// The record of an object in force.
    pub fn record(&self, id: ObjectId) -> Option<&ObjectRecord>
        ensures record { IfSome result (λ r. IsRecordOf self.now id r.now) }
        // An object has a record, if there are as many records as objects.
        ensures found { IsSome (object_at self.now.objects id) → length self.now.objects ≤ length self.now.records.items → IsSome result }
    {
        self.records.get(self.objects.place(id)?)
    }

    /// The index of the first byte of a finding: of a wrong field of a record, of a command of a macro, or else of the
    /// object's record. `None` for a finding of the whole pool.
    pub fn offset(&self, finding: &Finding) -> Option<usize>
        ensures offset { IfSome result (IsOffset self.now (place_of finding.now)) }
        // A finding of an object has an offset, if there are as many records as objects.
        ensures found { length self.now.objects ≤ length self.now.records.items → HasOffset self.now (place_of finding.now) → IsSome result }
    {
        match finding.place()? {
            FindingPlace::Byte(at) => Some(at),
            FindingPlace::Object(id) => Some(self.record(id)?.at),
            FindingPlace::Command { id, at } => command_at(self.record(id)?.at, at),
        }
    }
}

/// The bytes of a macro's record before its commands: ID, type and length.
const BEFORE_COMMANDS: usize = 5;

/// The index of a command in a pool, by that of the macro's record and that of the command in the macro's bytes. `None` if it is
/// no number of 64 bits.
fn command_at(begin: usize, command: usize) -> Option<usize>
    ensures offset { IfSome result (λ at. at ≡ begin + 5 + command) }
    ensures found { begin + 5 + command < 2 ^ 64 → IsSome result }
{
    begin.checked_add(BEFORE_COMMANDS)?.checked_add(command)
}

/// Finds all faults of a pool's bytes.
pub fn inspect(alloc: Global, bytes: &[u8]) -> Result<Inspection, AllocError>
    ensures { IfOk result (IsInspection bytes.now) }
{
    let PoolReading {
        objects,
        records,
        replaced,
        faults,
        passed,
        unread,
    } = read_past_faults(alloc, bytes)?;
    let mut findings = fault_findings(alloc, faults.as_slice())?;
    let mut of_rules = Vec::new(alloc);
    let mut notes = reading_notes(alloc, unread, passed.as_slice())?;
    put_findings(alloc, &objects, unread.is_none(), &mut of_rules, &mut notes)?;
    put_judged(alloc, of_rules, passed.as_slice(), &mut findings)?;
    Ok(Inspection {
        objects,
        records,
        replaced,
        passed,
        findings,
        notes,
    })
}

/// The findings of records.
fn fault_findings(alloc: Global, faults: &[PoolFault]) -> Result<Vec<Finding>, AllocError>
    ensures { IfOk result (λ findings. findings.items ≡ map Finding.Record faults.now) }
{
    let mut findings = Vec::with_capacity(alloc, faults.len())?;
    for fault in faults {
        findings.push(Finding::Record(*fault))?;
    }
    Ok(findings)
}

/// The notes on bytes that were not read, and on records that are passed over.
fn reading_notes(
    alloc: Global,
    unread: Option<usize>,
    passed: &[PassedRecord],
) -> Result<Vec<Note>, AllocError>
    ensures { IfOk result (λ notes. notes.items ≡ unread_notes unread ++ passed_notes passed.now) }
{
    let mut notes = Vec::new(alloc);
    if let Some(at) = unread {
        notes.push(Note::Unread { at })?;
    }
    if !passed.is_empty() {
        notes.push(Note::PassedOver)?;
    }
    Ok(notes)
}

//! The rules of a pool, in their order.

ghost use Rattle.std.specs.Prelude.{◌≡◌, [], ◌++◌, ◌↔◌, map, IsTrue, OnOk, IfOk};
ghost use Rattle.vt_stores.specs.Shapes.{shape_of};
ghost use Rattle.vt_stores.specs.Stores.{AreStored};
ghost use Rattle.check_inspect.specs.Findings.{PutsFindings, PutsSlots, PutsTriggers, if_all, reference_finding, cut_findings, target_findings, macro_findings};

use crate::finding::{Finding, ReferenceAt};
use crate::inclusions::put_too_deep;
use crate::inspection::Note;
use crate::macros::{CommandRule, put_commands, put_cut_short};
use crate::references::{missing, wrong_kinds};
use crate::targets::failing_targets;
use crate::triggers::put_triggers;
use crate::working_sets::put_working_sets;
use std::alloc::{AllocError, Global};
use vt_objects::SortedStore;
use vt_verify::Test;

/// Appends the findings of all rules, and what was not judged.
pub(crate) fn put_findings(
    alloc: Global,
    objects: &SortedStore,
    are_all: bool,
    findings: &mut Vec<Finding>,
    notes: &mut Vec<Note>,
) -> Result<(), AllocError>
    requires { AreStored objects.now }
    ensures { OnOk result (PutsFindings are_all objects.now findings.old.items findings.new.items notes.old.items notes.new.items) }
{
    put_slots(alloc, objects, are_all, findings)?;
    let are_whole = put_macros(alloc, objects, are_all, findings)?;
    put_triggers_if(are_whole, alloc, objects, findings, notes)
}

/// Appends the findings of rules 1 to 5.
fn put_slots(
    alloc: Global,
    objects: &SortedStore,
    are_all: bool,
    findings: &mut Vec<Finding>,
) -> Result<(), AllocError>
    requires { AreStored objects.now }
    ensures { OnOk result (PutsSlots are_all objects.now findings.old.items findings.new.items) }
{
    put_working_sets(objects, are_all, findings)?;
    let absent = missing(alloc, objects)?;
    put_if(are_all, ReferenceRule::Missing, absent.as_slice(), findings)?;
    let wrong = wrong_kinds(alloc, objects)?;
    put_references(ReferenceRule::WrongKind, wrong.as_slice(), findings)?;
    put_too_deep(alloc, objects, absent.as_slice(), findings)
}

/// Appends the findings of rules 6 to 10. Returns whether the bytes of all macros end with a whole command.
fn put_macros(
    alloc: Global,
    objects: &SortedStore,
    are_all: bool,
    findings: &mut Vec<Finding>,
) -> Result<bool, AllocError>
    ensures findings { OnOk result (findings.new.items ≡ findings.old.items ++ macro_findings are_all (shape_of objects.now)) }
    ensures whole { IfOk result (λ are_whole. IsTrue are_whole ↔ (cut_findings (shape_of objects.now) ≡ [])) }
{
    let before = findings.len();
    put_cut_short(objects, findings)?;
    let are_whole = findings.len() == before;
    put_commands(objects, CommandRule::IsAllowed, findings)?;
    put_targets(alloc, objects, are_all, findings)?;
    put_commands(objects, CommandRule::HasAttribute, findings)?;
    Ok(are_whole)
}

/// Appends the findings of rules 8 and 9.
fn put_targets(
    alloc: Global,
    objects: &SortedStore,
    are_all: bool,
    findings: &mut Vec<Finding>,
) -> Result<(), AllocError>
    ensures { OnOk result (findings.new.items ≡ findings.old.items ++ target_findings are_all (shape_of objects.now)) }
{
    let absent = failing_targets(alloc, objects, Test::IsThere)?;
    put_if(
        are_all,
        ReferenceRule::MacroMissing,
        absent.as_slice(),
        findings,
    )?;
    let wrong = failing_targets(alloc, objects, Test::Fits)?;
    put_references(ReferenceRule::MacroKind, wrong.as_slice(), findings)
}

/// Appends the findings of rules 11 and 12, if the bytes of all macros end with a whole command.
fn put_triggers_if(
    are_whole: bool,
    alloc: Global,
    objects: &SortedStore,
    findings: &mut Vec<Finding>,
    notes: &mut Vec<Note>,
) -> Result<(), AllocError>
    requires { IsTrue are_whole ↔ (cut_findings (shape_of objects.now) ≡ []) }
    ensures { OnOk result (PutsTriggers (shape_of objects.now) findings.old.items findings.new.items notes.old.items notes.new.items) }
{
    if are_whole {
        return put_triggers(alloc, objects, findings, notes);
    }
    notes.push(Note::UnknownTriggers)?;
    Ok(())
}

/// A rule of references.
#[derive(Clone, Copy, PartialEq, Eq)]
pub(crate) enum ReferenceRule {
    Missing,
    WrongKind,
    MacroMissing,
    MacroKind,
}

/// Appends references as findings of a rule, if all bytes were read.
fn put_if(
    are_all: bool,
    rule: ReferenceRule,
    references: &[ReferenceAt],
    findings: &mut Vec<Finding>,
) -> Result<(), AllocError>
    ensures { OnOk result (findings.new.items ≡ findings.old.items ++ if_all are_all (map (reference_finding rule) references.now)) }
{
    if are_all {
        return put_references(rule, references, findings);
    }
    Ok(())
}

/// Appends references as findings of a rule.
fn put_references(
    rule: ReferenceRule,
    references: &[ReferenceAt],
    findings: &mut Vec<Finding>,
) -> Result<(), AllocError>
    ensures { OnOk result (findings.new.items ≡ findings.old.items ++ map (reference_finding rule) references.now) }
{
    for reference in references {
        findings.push(finding_of(rule, *reference))?;
    }
    Ok(())
}

fn finding_of(rule: ReferenceRule, reference: ReferenceAt) -> Finding
    ensures { result ≡ reference_finding rule reference }
{
    match rule {
        ReferenceRule::Missing => Finding::Missing(reference),
        ReferenceRule::WrongKind => Finding::WrongKind(reference),
        ReferenceRule::MacroMissing => Finding::MacroMissing(reference),
        ReferenceRule::MacroKind => Finding::MacroKind(reference),
    }
}

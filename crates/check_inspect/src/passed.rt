//! References to records that are passed over.

ghost use Rattle.std.specs.Prelude.{◌≡◌, ℕ, List, ◌++◌, filter, nat_eq, OnOk, IfOk};
ghost use Rattle.indexmap.specs.IndexSet.{contains};
ghost use Rattle.check_reading.specs.declared.passed.PassedRecord.{PassedRecord as Passed};
ghost use Rattle.check_inspect.specs.Inspections.{has_id, is_judged};

use crate::finding::Finding;
use check_reading::PassedRecord;
use indexmap::IndexSet;
use std::alloc::{AllocError, Global};
use vt_objects::ObjectId;

/// Appends the findings of rules, except those that call an object missing whose record is passed over.
pub(crate) fn put_judged(
    alloc: Global,
    found: Vec<Finding>,
    passed: &[PassedRecord],
    findings: &mut Vec<Finding>,
) -> Result<(), AllocError>
    ensures { OnOk result (findings.new.items ≡ findings.old.items ++ filter (is_judged passed.now) found.items) }
{
    let ids = ids_of(alloc, passed)?;
    for finding in found {
        if is_judged(&ids, &finding) {
            findings.push(finding)?;
        }
    }
    Ok(())
}

/// The IDs of records.
fn ids_of(alloc: Global, passed: &[PassedRecord]) -> Result<IndexSet<ObjectId>, AllocError>
    ensures { IfOk result (λ ids. (id : ℕ) → contains nat_eq ids id ≡ has_id passed.now id) }
{
    let mut ids = IndexSet::new(alloc);
    for record in passed {
        ids.insert(record.id)?;
    }
    Ok(ids)
}

/// Whether a finding calls no object missing that has one of these IDs.
fn is_judged(ids: &IndexSet<ObjectId>, finding: &Finding) -> bool
    ensures { (passed : List Passed) → ((id : ℕ) → contains nat_eq ids.now id ≡ has_id passed id) → result ≡ is_judged passed finding.now }
{
    match finding {
        Finding::Missing(found) | Finding::MacroMissing(found) => {
            !ids.contains(&found.reference.id)
        }
        Finding::Record(_)
        | Finding::NoWorkingSet
        | Finding::TwoWorkingSets { .. }
        | Finding::WrongKind(_)
        | Finding::TooDeep { .. }
        | Finding::MacroBytes { .. }
        | Finding::MacroCommand { .. }
        | Finding::MacroKind(_)
        | Finding::MacroValue { .. }
        | Finding::MacroCircle { .. }
        | Finding::OverBudget { .. } => true,
    }
}

//! The findings of an object pool in numbers.

ghost use Rattle.std.specs.Prelude.{◌≡◌, IfOk, map, slice_get};
ghost use Rattle.check_verdicts.specs.Findings.{command_at, of_first, referring, told};

use crate::verdict::{NO_OBJECT, VtVerdict, fault_verdict, naming, number, placed};
use check_inspect::{Finding, ReferenceAt, Spot};
use std::alloc::{AllocError, Global};
use vt_objects::ObjectId;

/// All findings in numbers.
pub(crate) fn all_told(alloc: Global, findings: &[Finding]) -> Result<Vec<VtVerdict>, AllocError>
    ensures { IfOk result (λ all. all.items ≡ map told findings.now) }
{
    let mut all = Vec::with_capacity(alloc, findings.len())?;
    for finding in findings {
        all.push(told(finding))?;
    }
    Ok(all)
}

fn told(finding: &Finding) -> VtVerdict
    ensures { result ≡ told finding.now }
{
    match finding {
        Finding::Record(fault) => fault_verdict(fault),
        Finding::NoWorkingSet => placed(2, 1, 0),
        Finding::TwoWorkingSets { id } => naming(2, 0, *id, NO_OBJECT),
        Finding::Missing(found) => referring(3, found),
        Finding::WrongKind(found) => referring(4, found),
        Finding::TooDeep { chain } => of_first(5, chain.first().copied()),
        Finding::MacroBytes { id } => naming(6, 0, *id, NO_OBJECT),
        Finding::MacroCommand { id, at, .. } => naming(7, *at, *id, NO_OBJECT),
        Finding::MacroMissing(found) => referring(8, found),
        Finding::MacroKind(found) => referring(9, found),
        Finding::MacroValue { id, at, object, .. } => naming(10, *at, *id, number(*object)),
        Finding::MacroCircle { path } => of_first(11, first_macro(path)),
        Finding::OverBudget { id, .. } => naming(12, 0, *id, NO_OBJECT),
    }
}

/// A broken rule about a reference.
fn referring(rule: u32, found: &ReferenceAt) -> VtVerdict
    ensures { result ≡ referring rule found.now }
{
    let reference = found.reference;
    naming(
        rule,
        command_at(found.spot),
        reference.parent,
        number(reference.id),
    )
}

/// The offset of a command in its macro, or else 0.
fn command_at(spot: Spot) -> usize
    ensures { result ≡ command_at spot }
{
    match spot {
        Spot::Command { at, .. } => at,
        _ => 0,
    }
}

/// A broken rule about a chain or a circle, by the first object in it.
fn of_first(rule: u32, first: Option<ObjectId>) -> VtVerdict
    ensures { result ≡ of_first rule first }
{
    match first {
        Some(object) => naming(rule, 0, object, NO_OBJECT),
        None => placed(2, rule, 0),
    }
}

/// The first macro of a circle.
fn first_macro(path: &[u8]) -> Option<ObjectId>
    ensures { result ≡ slice_get path.now 0 }
{
    Some(ObjectId::from_raw(u16::from(*path.first()?)))
}

//! Rules 1 and 2: one working set.

ghost use Rattle.std.specs.Prelude.{◌≡◌, ◌++◌, OnOk};
ghost use Rattle.vt_stores.specs.Shapes.{shape_of};
ghost use Rattle.check_inspect.specs.Findings.{working_set_ids, set_findings};

use crate::finding::Finding;
use std::alloc::AllocError;
use vt_objects::{Kind, SortedStore};

/// Appends each working set but the first by rising ID, or, of bytes that were all read, that there is none.
pub(crate) fn put_working_sets(
    objects: &SortedStore,
    are_all: bool,
    findings: &mut Vec<Finding>,
) -> Result<(), AllocError>
    ensures { OnOk result (findings.new.items ≡ findings.old.items ++ set_findings are_all (working_set_ids (shape_of objects.now))) }
{
    let mut is_first = true;
    for (id, object) in objects.entries() {
        if matches!(object.kind(), Kind::WorkingSet) {
            if !is_first {
                findings.push(Finding::TwoWorkingSets { id: *id })?;
            }
            is_first = false;
        }
    }
    if is_first && are_all {
        findings.push(Finding::NoWorkingSet)?;
    }
    Ok(())
}

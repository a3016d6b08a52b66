//! The order of macros by their ranks.

ghost use Rattle.std.specs.Prelude.{◌≡◌, ◌++◌, IfOk, OnOk};
ghost use Rattle.vt_kinds.specs.Records.{seen};
ghost use Rattle.vt_rank.specs.Paths.{AreRanks};
ghost use Rattle.vt_stores.specs.Shapes.{shape_of, fixed};
ghost use Rattle.vt_verify.specs.Triggers.{run_by_name};
ghost use Rattle.vt_verify.specs.TriggerGraphs.{IsTriggerGraph};
ghost use Rattle.vt_verify.specs.Orders.{named_macros, IsByRank};

use crate::commands::named_macro;
use crate::triggers::TriggerGraph;
use std::alloc::{AllocError, Global};
use vt_objects::{Object, ObjectId, SortedStore};
use vt_rank::Ranks;

/// The macros with IDs up to 255, each after all macros that it triggers.
pub fn by_rank(
    alloc: Global,
    objects: &SortedStore,
    triggers: &TriggerGraph,
    ranks: &Ranks,
) -> Result<Vec<u8>, AllocError>
    requires triggers { IsTriggerGraph (shape_of objects.now) triggers.now.events.keys triggers.now.graph }
    requires ranks { AreRanks triggers.now.graph ranks.now }
    ensures { IfOk result (λ order. IsByRank (shape_of objects.now) order.items) }
{
    let mut order = macros(alloc, objects)?;
    order.sort_unstable_by_key(|id| ranks.of(*id));
    Ok(order)
}

/// The macros with IDs up to 255, by rising ID.
fn macros(alloc: Global, objects: &SortedStore) -> Result<Vec<u8>, AllocError>
    ensures { IfOk result (λ macros. macros.items ≡ named_macros (shape_of objects.now)) }
{
    let mut macros = Vec::new(alloc);
    for (id, object) in objects.entries() {
        put_macro(&mut macros, *id, object)?;
    }
    Ok(macros)
}

/// Appends the ID of an object, if it is a macro with an ID of at most 255.
pub(crate) fn put_macro(
    macros: &mut Vec<u8>,
    id: ObjectId,
    object: &Object<Vec<u8>>,
) -> Result<(), AllocError>
    ensures { OnOk result (macros.new.items ≡ macros.old.items ++ run_by_name id (fixed (seen object.now))) }
{
    if named_macro(id, object).is_some() {
        macros.push(id.raw() as u8)?;
    }
    Ok(())
}

//! The macros that an event can run.

ghost use Rattle.std.specs.Prelude.{◌≡◌, IfOk, false, filter, reverse, slice_index_or};
ghost use Rattle.vt_rank.specs.Paths.{AreRanks};
ghost use Rattle.vt_stores.specs.Shapes.{shape_of};
ghost use Rattle.vt_verify.specs.TriggerGraphs.{IsTriggerGraph};
ghost use Rattle.vt_verify.specs.Triggers.{listing};
ghost use Rattle.check_costs.specs.Runnable.{AreRunnable};

use std::alloc::{AllocError, Global};
use vt_objects::{ObjectId, SortedStore};
use vt_rank::{Ranks, reached};
use vt_verify::{TriggerGraph, by_rank};

/// The macros that an event can run, each once and before all that it triggers.
pub(crate) fn runnable(
    alloc: Global,
    objects: &SortedStore,
    triggers: &TriggerGraph,
    ranks: &Ranks,
    id: ObjectId,
    event: u8,
) -> Result<Vec<u8>, AllocError>
    requires triggers { IsTriggerGraph (shape_of objects.now) triggers.now.events.keys triggers.now.graph }
    requires ranks { AreRanks triggers.now.graph ranks.now }
    ensures { IfOk result (λ ids. AreRunnable (shape_of objects.now) (listing id event) ids.items) }
{
    let order = by_rank(alloc, objects, triggers, ranks)?;
    let reached = reached(&triggers.graph, triggers.macros_at(id, event));
    of_order(alloc, &order, &reached)
}

/// The marked macros of an order, the last first.
fn of_order(alloc: Global, order: &[u8], marks: &[bool; 256]) -> Result<Vec<u8>, AllocError>
    ensures { IfOk result (λ ids. ids.items ≡ reverse (filter (λ id. slice_index_or marks.now id false) order.now)) }
{
    let mut ids = Vec::new(alloc);
    for id in order {
        if marks[usize::from(*id)] {
            ids.push(*id)?;
        }
    }
    ids.reverse();
    Ok(ids)
}

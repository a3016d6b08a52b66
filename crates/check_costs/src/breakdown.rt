//! The breakdown of an event's cost.

ghost use Rattle.std.specs.Prelude.{◌≡◌, IfOk, IfSome, IfNone, None, map};
ghost use Rattle.vt_stores.specs.Shapes.{shape_of};
ghost use Rattle.vt_verify.specs.Rules as rules;
ghost use Rattle.vt_verify.specs.Triggers.{listing};
ghost use Rattle.check_costs.specs.Breakdowns.{IsBreakdown, AreCostsUnknown};
ghost use Rattle.check_costs.specs.CostedPools.{IsCosted};
ghost use Rattle.check_costs.specs.Shares.{IsCostliestHide, row_of, macro_row};

use crate::costed_pool::CostedPool;
use crate::costliest::costliest_hide;
use crate::macro_costs::macro_cost;
use crate::runnable::runnable;
use crate::share::{EventCost, MOST_STEPS, MacroCost};
use std::alloc::{AllocError, Global};
use vt_objects::{ObjectId, SortedStore};
use vt_rank::{costs_up_to, rank};
use vt_verify::{Listings, TriggerGraph, cut_short};

/// What an event can cost, and why.
#[derive(Drop)]
pub struct Breakdown {
    /// The event.
    pub event: EventCost,
    /// Each macro that the event can run, once and before all that it triggers.
    pub macros: Vec<MacroCost>,
    /// The macros that run at each event of the pool.
    pub listings: Listings,
}

/// Breaks the cost of an event down to the shares of commands. `None` if costs are not known: the bytes of a macro end inside a command,
/// or macros trigger each other in a circle. An event at which no macro runs costs no step.
pub fn break_down(
    alloc: Global,
    objects: &SortedStore,
    id: ObjectId,
    event: u8,
) -> Result<Option<Breakdown>, AllocError>
    ensures known { IfOk result (λ found. IfSome found (IsBreakdown (shape_of objects.now) (listing id event))) }
    ensures unknown { IfOk result (λ found. IfNone found (AreCostsUnknown (shape_of objects.now))) }
{
    if cut_short(objects).is_some() {
        return Ok(None);
    }
    let triggers = TriggerGraph::of_objects(alloc, objects)?;
    let Ok(ranks) = rank(&triggers.graph) else {
        return Ok(None);
    };
    let ids = runnable(alloc, objects, &triggers, &ranks, id, event)?;
    let steps = costs_up_to(&triggers.graph, &ranks, MOST_STEPS);
    let pool = CostedPool {
        objects,
        triggers,
        steps,
    };
    let macros = macro_costs(alloc, &pool, &costliest_hide(&pool), &ids)?;
    Ok(Some(Breakdown {
        event: pool.event_cost(id, event),
        macros,
        listings: pool.triggers.into_listings(),
    }))
}

/// The costs of macros.
fn macro_costs(
    alloc: Global,
    pool: &CostedPool<'_>,
    hide: &Option<EventCost>,
    ids: &[u8],
) -> Result<Vec<MacroCost>, AllocError>
    requires pool { IsCosted pool.now }
    requires whole { rules.cut_short (shape_of pool.now.objects.now) ≡ None }
    requires hide { IsCostliestHide (shape_of pool.now.objects.now) hide.now }
    ensures { IfOk result (λ costs. map row_of costs.items ≡ map (macro_row (shape_of pool.now.objects.now) hide.now) ids.now) }
{
    let mut costs = Vec::with_capacity(alloc, ids.len())?;
    for id in ids {
        costs.push(macro_cost(alloc, pool, hide, *id)?)?;
    }
    Ok(costs)
}

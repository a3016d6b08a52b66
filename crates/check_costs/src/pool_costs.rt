//! The costs of all events of a pool.

ghost use Rattle.std.specs.Prelude.{◌≡◌, map, IfOk, IfSome, IfNone};
ghost use Rattle.vt_stores.specs.Shapes.{shape_of};
ghost use Rattle.vt_verify.specs.TriggerGraphs.{listed_events};
ghost use Rattle.check_costs.specs.Breakdowns.{AreCostsUnknown};
ghost use Rattle.check_costs.specs.CostedPools.{IsCosted};
ghost use Rattle.check_costs.specs.Shares.{event_cost};

use crate::costed_pool::CostedPool;
use crate::share::{EventCost, MOST_STEPS};
use std::alloc::{AllocError, Global};
use vt_objects::SortedStore;
use vt_rank::{costs_up_to, rank};
use vt_verify::{Listing, TriggerGraph, cut_short};

/// The cost of each event at which macros run, by rising ID and number. `None` if costs are not known, as of `break_down`.
pub fn event_costs(
    alloc: Global,
    objects: &SortedStore,
) -> Result<Option<Vec<EventCost>>, AllocError>
    ensures known { IfOk result (λ found. IfSome found (λ costs. costs.items ≡ map (event_cost (shape_of objects.now)) (listed_events (shape_of objects.now)))) }
    ensures unknown { IfOk result (λ found. IfNone found (AreCostsUnknown (shape_of objects.now))) }
{
    if cut_short(objects).is_some() {
        return Ok(None);
    }
    let triggers = TriggerGraph::of_objects(alloc, objects)?;
    let Ok(ranks) = rank(&triggers.graph) else {
        return Ok(None);
    };
    let steps = costs_up_to(&triggers.graph, &ranks, MOST_STEPS);
    let pool = CostedPool {
        objects,
        triggers,
        steps,
    };
    let costs = costs_of(alloc, &pool, pool.triggers.events.as_slice())?;
    Ok(Some(costs))
}

/// The costs of events.
fn costs_of(
    alloc: Global,
    pool: &CostedPool<'_>,
    events: &[Listing],
) -> Result<Vec<EventCost>, AllocError>
    requires { IsCosted pool.now }
    ensures { IfOk result (λ costs. costs.items ≡ map (event_cost (shape_of pool.now.objects.now)) events.now) }
{
    let mut costs = Vec::with_capacity(alloc, events.len())?;
    for event in events {
        costs.push(pool.event_cost(event.id, event.event))?;
    }
    Ok(costs)
}

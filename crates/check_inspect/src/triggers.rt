//! Rules 11 and 12: circles of macros, and their costs.

ghost use Rattle.std.specs.Prelude.{◌≡◌, ◌+◌, [], ◌++◌, ◌&&◌, not, filter, map, OnOk, length, nat_lt, slice_index, sum_by};
ghost use Rattle.std.specs.List.{list_any};
ghost use Rattle.vt_kinds.specs.Records.{seen};
ghost use Rattle.vt_rank.specs.Costs.{AreCostsUpTo};
ghost use Rattle.vt_rank.specs.Graphs.{triggered};
ghost use Rattle.vt_rank.specs.Paths.{AreRanks};
ghost use Rattle.vt_chains.specs.Limits.{terminal};
ghost use Rattle.vt_stores.specs.Shapes.{shape_of, fixed};
ghost use Rattle.vt_verify.specs.Orders.{named_macros};
ghost use Rattle.vt_verify.specs.Triggers.{run_by_name};
ghost use Rattle.vt_verify.specs.TriggerGraphs.{IsTriggerGraph, listed_events};
ghost use Rattle.check_inspect.specs.Costs.{over_findings, macro_finding, event_finding, AreMacroCosts, costs_too_much, event_costs_too_much};
ghost use Rattle.check_inspect.specs.Findings.{cut_findings, PutsCircles, PutsTriggers};

use crate::finding::Finding;
use crate::inspection::Note;
use check_circles::circles;
use std::alloc::{AllocError, Global};
use vt_objects::{Object, ObjectId, SortedStore};
use vt_rank::{Graph, Ranks, cost_of_nodes, costs_up_to, rank};
use vt_verify::{TERMINAL_LIMITS, TriggerGraph, named_macro};

/// Appends the circles of macros, no two of which share a macro, or, without a circle, the macros and the events that can
/// cost too many steps.
pub(crate) fn put_triggers(
    alloc: Global,
    objects: &SortedStore,
    findings: &mut Vec<Finding>,
    notes: &mut Vec<Note>,
) -> Result<(), AllocError>
    requires { cut_findings (shape_of objects.now) ≡ [] }
    ensures { OnOk result (PutsTriggers (shape_of objects.now) findings.old.items findings.new.items notes.old.items notes.new.items) }
{
    let triggers = TriggerGraph::of_objects(alloc, objects)?;
    match rank(&triggers.graph) {
        Ok(ranks) => put_over(objects, &triggers, &ranks, findings),
        Err(_) => {
            put_circles(alloc, &triggers.graph, findings)?;
            notes.push(Note::UnknownCosts)?;
            Ok(())
        }
    }
}

/// Appends the circles of macros: the one of the least macro, then, without the commands of its macros, the next, until
/// there is none.
fn put_circles(alloc: Global, graph: &Graph, findings: &mut Vec<Finding>) -> Result<(), AllocError>
    ensures { OnOk result (PutsCircles (triggered graph.now) findings.old.items findings.new.items) }
{
    for circle in circles(alloc, graph)? {
        findings.push(Finding::MacroCircle { path: circle.path })?;
    }
    Ok(())
}

/// Appends the macros that can cost too many steps, and the events that can though no macro listed there can.
fn put_over(
    objects: &SortedStore,
    triggers: &TriggerGraph,
    ranks: &Ranks,
    findings: &mut Vec<Finding>,
) -> Result<(), AllocError>
    requires triggers { IsTriggerGraph (shape_of objects.now) triggers.now.events.keys triggers.now.graph }
    requires ranks { AreRanks triggers.now.graph ranks.now }
    ensures { OnOk result (findings.new.items ≡ findings.old.items ++ over_findings (shape_of objects.now)) }
{
    let costs = costs_up_to(&triggers.graph, ranks, over_budget());
    put_macros_over(objects, &costs, findings)?;
    put_events_over(objects, triggers, &costs, findings)
}

/// The least number of steps that is too many.
fn over_budget() -> u64
    ensures { result ≡ terminal.steps + 1 }
{
    u64::from(TERMINAL_LIMITS.steps) + 1
}

fn put_macros_over(
    objects: &SortedStore,
    costs: &[u64; 256],
    findings: &mut Vec<Finding>,
) -> Result<(), AllocError>
    requires { AreMacroCosts (shape_of objects.now) (terminal.steps + 1) costs.now }
    ensures { OnOk result (findings.new.items ≡ findings.old.items ++ map macro_finding (filter (costs_too_much (shape_of objects.now)) (named_macros (shape_of objects.now)))) }
{
    for (id, object) in objects.entries() {
        put_macro_over(*id, object, costs, findings)?;
    }
    Ok(())
}

/// Appends an object, if it is a macro with an ID of at most 255 that can cost too many steps.
fn put_macro_over(
    id: ObjectId,
    object: &Object<Vec<u8>>,
    costs: &[u64; 256],
    findings: &mut Vec<Finding>,
) -> Result<(), AllocError>
    ensures { OnOk result (findings.new.items ≡ findings.old.items ++ map macro_finding (filter (λ m. nat_lt terminal.steps (slice_index costs.now m)) (run_by_name id (fixed (seen object.now))))) }
{
    if named_macro(id, object).is_none() {
        return Ok(());
    }
    match costs.get(usize::from(id.raw())) {
        Some(cost) if *cost >= over_budget() => {
            findings.push(Finding::OverBudget { id, event: None })?;
            Ok(())
        }
        _ => Ok(()),
    }
}

fn put_events_over(
    objects: &SortedStore,
    triggers: &TriggerGraph,
    costs: &[u64; 256],
    findings: &mut Vec<Finding>,
) -> Result<(), AllocError>
    requires triggers { IsTriggerGraph (shape_of objects.now) triggers.now.events.keys triggers.now.graph }
    requires costs { AreMacroCosts (shape_of objects.now) (terminal.steps + 1) costs.now }
    ensures { OnOk result (findings.new.items ≡ findings.old.items ++ map event_finding (filter (event_costs_too_much (shape_of objects.now)) (listed_events (shape_of objects.now)))) }
{
    for group in 0..triggers.events.len() {
        let listing = triggers.events[group];
        if is_over(costs, triggers.graph.group(group)) {
            findings.push(Finding::OverBudget {
                id: listing.id,
                event: Some(listing.event),
            })?;
        }
    }
    Ok(())
}

/// Whether some macros can cost too many steps together, though none of them does alone.
fn is_over(costs: &[u64; 256], macros: &[u8]) -> bool
    ensures { result ≡ (nat_lt terminal.steps (sum_by (slice_index costs.now) macros.now) && not (list_any (λ m. nat_lt terminal.steps (slice_index costs.now m)) macros.now)) }
{
    cost_of_nodes(costs, macros, over_budget()) == over_budget() && !has_over(costs, macros)
}

/// Whether one of some macros can cost too many steps alone.
fn has_over(costs: &[u64; 256], macros: &[u8]) -> bool
    ensures { result ≡ list_any (λ m. nat_lt terminal.steps (slice_index costs.now m)) macros.now }
{
    for id in macros {
        if costs[usize::from(*id)] >= over_budget() {
            return true;
        }
    }
    false
}

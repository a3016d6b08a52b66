//! Verifies pools: tests the rules of a pool in their order.

ghost use Rattle.std.specs.Prelude.{◌≡◌, ◌≤◌, OnOk, IfOk, IfErr, slice_index};
ghost use Rattle.vt_stores.specs.Stores.{AreStored, by_rising_id};
ghost use Rattle.vt_rank.specs.Costs.{IsFirstOverCap};
ghost use Rattle.vt_rank.specs.Graphs.{lists, triggered};
ghost use Rattle.vt_rank.specs.Paths.{AreRanks, HasNoCircle, IsCircle, IsDistinct, IsLeastOnCircles};
ghost use Rattle.vt_stores.specs.Shapes.{shape_of};
ghost use Rattle.vt_verify.specs.Budgets.{AreBudgets, MacroCostsAreTotals};
ghost use Rattle.vt_chains.specs.Depths.{HasDepths};
ghost use Rattle.vt_verify.specs.Orders.{IsByRank};
ghost use Rattle.vt_verify.specs.TriggerGraphs.{AreListings, IsTriggerGraph};
ghost use Rattle.vt_verify.specs.Updates.{updated};
ghost use Rattle.vt_verify.specs.Rules.{IsAcceptable, IsVerified, IsRefused, IsWantOfMemory, HoldBefore, ReferencesAreThere, ChainsAreShort, MacrosAreWhole, TargetsAreThere, AttributesAreThere, TriggersAreNoCircle, BudgetsAreWithin};
ghost use Rattle.vt_chains.specs.Limits.{terminal};

use crate::accepted::Accepted;
use crate::budgets::Budgets;
use crate::macros::{PieceTest, cut_short, failing_piece};
use crate::objects::{sorted, sorted_owned, updated};
use crate::order::by_rank;
use crate::reference::Test;
use crate::references::{all_pass, missing, wrong_kind};
use crate::refusal::Refusal;
use crate::targets::failing_target;
use crate::triggers::TriggerGraph;
use std::alloc::Global;
use vt_chains::{Limits, TERMINAL_LIMITS, find_depths};
use vt_objects::{Kind, ObjectId, SortedStore, Store};
use vt_pool::Pool;
use vt_rank::{Circle, OverBudget, Ranks, costs, rank_on_heap};

/// Verifies a pool. A refusal reports the first rule that the pool breaks, and its first culprit, or some chain or
/// circle.
pub fn verify(alloc: Global, pool: &Pool<'_>) -> Result<Accepted, Refusal>
    // The accepted objects are the objects of the pool, and they meet all rules.
    ensures accepted { IfOk result (λ accepted. (accepted ≡ by_rising_id pool.now) × IsAcceptable terminal accepted) }
    ensures verified { IfOk result IsVerified }
    // A refusal reports the first rule that fails, and its first culprit, or some chain or circle.
    ensures refused { IfErr result (IsRefused terminal (by_rising_id pool.now)) }
{
    let objects = sorted(alloc, pool)?;
    accept(alloc, objects)
}

/// Like `verify`, but consumes the pool: its lists are moved, and only texts, picture and macro bytes are copied. After a
/// refusal the pool is gone.
pub fn verify_owned(alloc: Global, pool: Pool<'_>) -> Result<Accepted, Refusal>
    // The accepted objects are the objects of the pool, and they meet all rules.
    ensures accepted { IfOk result (λ accepted. (accepted ≡ by_rising_id pool.entry) × IsAcceptable terminal accepted) }
    ensures verified { IfOk result IsVerified }
    // A refusal reports the first rule that fails, and its first culprit, or some chain or circle.
    ensures refused { IfErr result (IsRefused terminal (by_rising_id pool.entry)) }
{
    let objects = sorted_owned(alloc, pool)?;
    accept(alloc, objects)
}

/// Verifies an update of a store: the objects of the pool and the other objects of the store. The rules and the refusals
/// are those of a pool. Changes nothing.
pub fn verify_update<S: Store>(
    alloc: Global,
    store: &S,
    update: &Pool<'_>,
) -> Result<Accepted, Refusal>
    // The accepted objects are those of the updated store, and they meet all rules.
    ensures accepted { IfOk result (λ accepted. (accepted ≡ updated (S.contents store.now) update.now) × IsAcceptable terminal accepted) }
    ensures verified { IfOk result IsVerified }
    // A refusal reports the first rule that fails, and its first culprit, or some chain or circle.
    ensures refused { IfErr result (IsRefused terminal (updated (S.contents store.now) update.now)) }
{
    let objects = updated(alloc, store, update)?;
    accept(alloc, objects)
}

fn accept(alloc: Global, objects: SortedStore) -> Result<Accepted, Refusal>
    requires { AreStored objects }
    ensures accepted { IfOk result (λ accepted. (accepted ≡ objects) × IsAcceptable terminal accepted) }
    ensures verified { IfOk result IsVerified }
    ensures refused { IfErr result (IsRefused terminal objects) }
{
    check_working_sets(&objects)?;
    check_references(&objects)?;
    let depths = check_inclusions(alloc, &objects, TERMINAL_LIMITS)?;
    check_macros(&objects)?;
    check_targets(&objects)?;
    let (budgets, order) = budgets_and_order(alloc, &objects)?;
    Ok(Accepted {
        objects,
        depths,
        budgets,
        order,
    })
}

fn check_working_sets(objects: &SortedStore) -> Result<(), Refusal>
    ensures ok { OnOk result (HoldBefore terminal objects.now ReferencesAreThere) }
    ensures refused { IfErr result (IsRefused terminal objects.now) }
    ensures no_memory { IfErr result (λ refusal. IsWantOfMemory refusal → ⊥) }
{
    let mut count = 0usize;
    for (_, object) in objects.entries() {
        if matches!(object.kind(), Kind::WorkingSet) {
            count += 1;
        }
    }
    match count {
        0 => Err(Refusal::NoWorkingSet),
        1 => Ok(()),
        _ => Err(Refusal::TwoWorkingSets),
    }
}

fn check_references(objects: &SortedStore) -> Result<(), Refusal>
    requires { HoldBefore terminal objects.now ReferencesAreThere }
    ensures ok { OnOk result (HoldBefore terminal objects.now ChainsAreShort) }
    ensures refused { IfErr result (IsRefused terminal objects.now) }
    ensures no_memory { IfErr result (λ refusal. IsWantOfMemory refusal → ⊥) }
{
    if all_pass(objects) {
        return Ok(());
    }
    refuse_reference(objects)
}

/// Refuses the first slot that refers to a missing object, or else the first that refers to a kind that is not allowed.
fn refuse_reference(objects: &SortedStore) -> Result<(), Refusal>
    requires { HoldBefore terminal objects.now ReferencesAreThere }
    ensures ok { OnOk result (HoldBefore terminal objects.now ChainsAreShort) }
    ensures refused { IfErr result (IsRefused terminal objects.now) }
    ensures no_memory { IfErr result (λ refusal. IsWantOfMemory refusal → ⊥) }
{
    if let Some(reference) = missing(objects) {
        return Err(Refusal::Missing {
            parent: reference.parent,
            id: reference.id,
        });
    }
    match wrong_kind(objects) {
        None => Ok(()),
        Some(reference) => Err(Refusal::WrongKind {
            parent: reference.parent,
            id: reference.id,
        }),
    }
}

/// Finds the depths of the objects, or refuses a chain that is too long.
fn check_inclusions(
    alloc: Global,
    objects: &SortedStore,
    limits: Limits,
) -> Result<Vec<u8>, Refusal>
    requires stored { AreStored objects.now }
    requires before { HoldBefore limits objects.now ChainsAreShort }
    requires inclusions { limits.inclusions ≤ 32 }
    ensures ok { OnOk result (HoldBefore limits objects.now MacrosAreWhole) }
    ensures depths { IfOk result (λ depths. HasDepths limits objects.now depths.items) }
    ensures refused { IfErr result (IsRefused limits objects.now) }
{
    let mut depths = Vec::from_elem(alloc, 0, objects.count())?;
    match find_depths(objects, &mut depths, limits.inclusions) {
        Ok(()) => Ok(depths),
        Err(chain) => Err(Refusal::TooDeep { chain }),
    }
}

fn check_macros(objects: &SortedStore) -> Result<(), Refusal>
    requires { HoldBefore terminal objects.now MacrosAreWhole }
    ensures ok { OnOk result (HoldBefore terminal objects.now TargetsAreThere) }
    ensures refused { IfErr result (IsRefused terminal objects.now) }
    ensures no_memory { IfErr result (λ refusal. IsWantOfMemory refusal → ⊥) }
{
    if let Some(id) = cut_short(objects) {
        return Err(Refusal::MacroBytes { id });
    }
    match failing_piece(objects, PieceTest::IsAllowed) {
        None => Ok(()),
        Some((id, at)) => Err(Refusal::MacroCommand { id, at }),
    }
}

fn check_targets(objects: &SortedStore) -> Result<(), Refusal>
    requires { HoldBefore terminal objects.now TargetsAreThere }
    ensures ok { OnOk result (HoldBefore terminal objects.now TriggersAreNoCircle) }
    ensures refused { IfErr result (IsRefused terminal objects.now) }
    ensures no_memory { IfErr result (λ refusal. IsWantOfMemory refusal → ⊥) }
{
    check_named(objects)?;
    match failing_piece(objects, PieceTest::HasAttribute) {
        None => Ok(()),
        Some((id, at)) => Err(Refusal::MacroValue { id, at }),
    }
}

fn check_named(objects: &SortedStore) -> Result<(), Refusal>
    requires { HoldBefore terminal objects.now TargetsAreThere }
    ensures ok { OnOk result (HoldBefore terminal objects.now AttributesAreThere) }
    ensures refused { IfErr result (IsRefused terminal objects.now) }
    ensures no_memory { IfErr result (λ refusal. IsWantOfMemory refusal → ⊥) }
{
    match failing_target(objects, Test::Stands) {
        None => Ok(()),
        Some(_) => refuse_target(objects),
    }
}

/// Refuses the first entry or command with a missing object, or else the first with a kind that is not allowed.
fn refuse_target(objects: &SortedStore) -> Result<(), Refusal>
    requires { HoldBefore terminal objects.now TargetsAreThere }
    ensures ok { OnOk result (HoldBefore terminal objects.now AttributesAreThere) }
    ensures refused { IfErr result (IsRefused terminal objects.now) }
    ensures no_memory { IfErr result (λ refusal. IsWantOfMemory refusal → ⊥) }
{
    if let Some(reference) = failing_target(objects, Test::IsThere) {
        return Err(Refusal::MacroMissing {
            parent: reference.parent,
            id: reference.id,
        });
    }
    match failing_target(objects, Test::Fits) {
        None => Ok(()),
        Some(reference) => Err(Refusal::MacroKind {
            parent: reference.parent,
            id: reference.id,
        }),
    }
}

/// Tests the rules of triggers and costs. Returns the budgets of the events, and the macros in the order of their ranks. It is
/// not inlined: the ranks and costs would be in the frame of `accept`, and so on the stack during the search for chains.
#[inline(never)]
fn budgets_and_order(alloc: Global, objects: &SortedStore) -> Result<(Budgets, Vec<u8>), Refusal>
    requires stored { AreStored objects.now }
    requires before { HoldBefore terminal objects.now TriggersAreNoCircle }
    ensures ok { OnOk result (IsAcceptable terminal objects.now) }
    ensures totals { OnOk result (MacroCostsAreTotals (shape_of objects.now)) }
    ensures budgets { IfOk result (λ made. AreBudgets (shape_of objects.now) made.0.events.keys made.0.steps.items) }
    ensures listings { IfOk result (λ made. AreListings (shape_of objects.now) (made.0.events.keys, lists made.0.groups)) }
    ensures order { IfOk result (λ made. IsByRank (shape_of objects.now) made.1.items) }
    ensures refused { IfErr result (IsRefused terminal objects.now) }
{
    let triggers = TriggerGraph::of_objects(alloc, objects)?;
    let ranks = check_circles(alloc, objects, &triggers)?;
    let order = by_rank(alloc, objects, &triggers, &ranks)?;
    let budgets = check_costs(alloc, objects, triggers, &ranks, TERMINAL_LIMITS)?;
    Ok((budgets, order))
}

/// Ranks the macros, or refuses a circle. It is not inlined, so that its stack is free again when costs are computed.
#[inline(never)]
fn check_circles(
    alloc: Global,
    objects: &SortedStore,
    triggers: &TriggerGraph,
) -> Result<Ranks, Refusal>
    requires before { HoldBefore terminal objects.now TriggersAreNoCircle }
    requires triggers { IsTriggerGraph (shape_of objects.now) triggers.now.events.keys triggers.now.graph }
    ensures ok { OnOk result (HoldBefore terminal objects.now BudgetsAreWithin) }
    ensures ranks { IfOk result (AreRanks triggers.now.graph) }
    ensures refused { IfErr result (IsRefused terminal objects.now) }
{
    let ranked = rank_on_heap(alloc, &triggers.graph)?;
    ranks_or_refusal(objects, triggers, ranked)
}

/// The ranks of the macros, or the refusal of their circle.
fn ranks_or_refusal(
    objects: &SortedStore,
    triggers: &TriggerGraph,
    ranked: Result<Ranks, Circle>,
) -> Result<Ranks, Refusal>
    requires before { HoldBefore terminal objects.now TriggersAreNoCircle }
    requires triggers { IsTriggerGraph (shape_of objects.now) triggers.now.events.keys triggers.now.graph }
    requires falls { IfOk ranked (AreRanks triggers.now.graph) }
    requires none { OnOk ranked (HasNoCircle (triggered triggers.now.graph)) }
    requires circle { IfErr ranked (λ c. IsCircle (triggered triggers.now.graph) c.path.items) }
    requires once { IfErr ranked (λ c. IsDistinct c.path.items) }
    requires least { IfErr ranked (λ c. IsLeastOnCircles (triggered triggers.now.graph) (slice_index c.path.items 0)) }
    ensures ok { OnOk result (HoldBefore terminal objects.now BudgetsAreWithin) }
    ensures ranks { IfOk result (AreRanks triggers.now.graph) }
    ensures refused { IfErr result (IsRefused terminal objects.now) }
    ensures no_memory { IfErr result (λ refusal. IsWantOfMemory refusal → ⊥) }
{
    match ranked {
        Ok(ranks) => Ok(ranks),
        Err(circle) => Err(Refusal::MacroCircle { path: circle.path }),
    }
}

/// Finds the budgets of the events from the costs of the macros, or refuses what is over the limit. It is not inlined, so that
/// the table of costs is on the stack no longer than it is needed.
#[inline(never)]
fn check_costs(
    alloc: Global,
    objects: &SortedStore,
    triggers: TriggerGraph,
    ranks: &Ranks,
    limits: Limits,
) -> Result<Budgets, Refusal>
    requires stored { AreStored objects.now }
    requires before { HoldBefore limits objects.now BudgetsAreWithin }
    requires triggers { IsTriggerGraph (shape_of objects.now) triggers.events.keys triggers.graph }
    requires ranks { AreRanks triggers.graph ranks.now }
    ensures ok { OnOk result (IsAcceptable limits objects.now) }
    ensures totals { OnOk result (MacroCostsAreTotals (shape_of objects.now)) }
    ensures budgets { IfOk result (λ budgets. AreBudgets (shape_of objects.now) budgets.events.keys budgets.steps.items) }
    ensures listings { IfOk result (λ budgets. AreListings (shape_of objects.now) (budgets.events.keys, lists budgets.groups)) }
    ensures refused { IfErr result (IsRefused limits objects.now) }
{
    match &costs(&triggers.graph, ranks, limits.steps) {
        Ok(costs) => Ok(Budgets::of_triggers(alloc, triggers, costs)?),
        Err(over) => Err(over_budget(objects, &triggers, *over, limits)),
    }
}

/// The refusal of a macro that costs too much, or of the object of an event that does.
fn over_budget(
    objects: &SortedStore,
    triggers: &TriggerGraph,
    over: OverBudget,
    limits: Limits,
) -> Refusal
    requires stored { AreStored objects.now }
    requires before { HoldBefore limits objects.now BudgetsAreWithin }
    requires triggers { IsTriggerGraph (shape_of objects.now) triggers.now.events.keys triggers.now.graph }
    requires over { IsFirstOverCap triggers.now.graph limits.steps over }
    ensures refused { IsRefused limits objects.now result }
    ensures no_memory { IsWantOfMemory result → ⊥ }
{
    match over {
        OverBudget::Node(id) => Refusal::OverBudget {
            id: ObjectId::from_raw(u16::from(id)),
        },
        OverBudget::Group(group) => Refusal::OverBudget {
            id: triggers.events[group].id,
        },
    }
}

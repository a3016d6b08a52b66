//! The budgets of a pool's events.

ghost use Rattle.std.specs.Prelude.{◌≡◌, IfOk};
ghost use Rattle.vt_rank.specs.Costs.{AreCosts};
ghost use Rattle.vt_rank.specs.Graphs.{lists};
ghost use Rattle.vt_stores.specs.Shapes.{Shape};
ghost use Rattle.vt_verify.specs.TriggerGraphs.{IsTriggerGraph, AreListings};
ghost use Rattle.vt_verify.specs.Budgets.{AreBudgets};

use crate::listing::Listing;
use crate::triggers::TriggerGraph;
use indexmap::IndexSet;
use std::alloc::{AllocError, Global};
use vt_rank::Costs;

/// The events at which macros run. `groups` and `steps` have the macros and the budget of each event at its index.
#[derive(Drop)]
pub(crate) struct Budgets {
    pub(crate) events: IndexSet<Listing>,
    pub(crate) groups: Vec<Vec<u8>>,
    pub(crate) steps: Vec<u32>,
}

impl Budgets {
    /// The budgets of the events of a graph. Frees the nodes: they take several times the bytes of the macros.
    pub(crate) fn of_triggers(
        alloc: Global,
        triggers: TriggerGraph,
        costs: &Costs,
    ) -> Result<Budgets, AllocError>
        requires { AreCosts triggers.graph costs.now }
        ensures budgets { IfOk result (λ budgets. (shape : Shape) → IsTriggerGraph shape triggers.events.keys triggers.graph → AreBudgets shape budgets.events.keys budgets.steps.items) }
        ensures listings { IfOk result (λ budgets. (shape : Shape) → IsTriggerGraph shape triggers.events.keys triggers.graph → AreListings shape (budgets.events.keys, lists budgets.groups)) }
    {
        let TriggerGraph { events, graph } = triggers;
        let mut steps = Vec::with_capacity(alloc, events.len())?;
        for group in 0..events.len() {
            steps.push(costs.group(&graph, group))?;
        }
        Ok(Budgets {
            events,
            groups: graph.groups,
            steps,
        })
    }
}

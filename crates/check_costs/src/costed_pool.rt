//! A pool with the costs of its macros.

ghost use Rattle.std.specs.Prelude.{◌≡◌};
ghost use Rattle.vt_stores.specs.Shapes.{shape_of};
ghost use Rattle.vt_verify.specs.Triggers.{listing};
ghost use Rattle.check_costs.specs.CostedPools.{IsCosted};
ghost use Rattle.check_costs.specs.Shares.{event_cost};

use crate::share::{EventCost, MOST_STEPS};
use vt_objects::{ObjectId, SortedStore};
use vt_rank::cost_of_nodes;
use vt_verify::TriggerGraph;

/// The objects of a pool, the triggers of its macros, and the steps of each macro.
#[derive(Drop)]
pub(crate) struct CostedPool<'a> {
    pub(crate) objects: &'a SortedStore,
    pub(crate) triggers: TriggerGraph,
    pub(crate) steps: [u64; 256],
}

impl CostedPool<'_> {
    /// The cost of an event.
    pub(crate) fn event_cost(&self, id: ObjectId, event: u8) -> EventCost
        requires { IsCosted self.now }
        ensures { result ≡ event_cost (shape_of self.now.objects.now) (listing id event) }
    {
        let macros = self.triggers.macros_at(id, event);
        EventCost {
            id,
            event,
            steps: cost_of_nodes(&self.steps, macros, MOST_STEPS),
        }
    }
}

//! The steps that the events of an accepted pool can take, and the inclusions of its chains.

ghost use Rattle.std.specs.Prelude.{◌≡◌, ◌≤◌, ◌⊎◌};
ghost use Rattle.vt_stores.specs.Shapes.{shape_of};
ghost use Rattle.vt_verify.specs.Budgets.{budget};
ghost use Rattle.check_needs.specs.Loads as spec;
ghost use Rattle.check_needs.specs.Needs.{greatest};

use vt_objects::{Event, ObjectId};
use vt_verify::Accepted;

/// An event, and how many steps it can take.
#[derive(Clone, Copy, PartialEq, Eq)]
pub struct Dearest {
    /// The ID of the object.
    pub id: ObjectId,
    /// The number of the event.
    pub event: u8,
    /// The most steps of the event.
    pub steps: u32,
}

/// An event of an accepted pool that can take the most steps. If none can take a step, it is any event.
pub fn dearest_event(accepted: &Accepted) -> Dearest
    ensures { spec.IsDearest accepted.now result }
{
    let mut dearest = dearest_of(accepted, ObjectId::NULL);
    for (id, _) in accepted.objects() {
        dearest = dearer(dearest, dearest_of(accepted, *id));
    }
    dearest
}

/// The event that can take more steps, or the first.
fn dearer(first: Dearest, second: Dearest) -> Dearest
    ensures either { (result ≡ first) ⊎ (result ≡ second) }
    ensures first { first.steps ≤ result.steps }
    ensures second { second.steps ≤ result.steps }
{
    if first.steps < second.steps {
        second
    } else {
        first
    }
}

/// The event of an object that can take the most steps.
fn dearest_of(accepted: &Accepted, id: ObjectId) -> Dearest
    ensures steps { budget (shape_of accepted.now) result.id result.event ≡ result.steps }
    ensures most { spec.IsWithin (shape_of accepted.now) result.steps id }
{
    let mut dearest = Dearest {
        id,
        event: 0,
        steps: accepted.budget(id, 0),
    };
    for event in 1..Event::LAST_NUMBER + 1 {
        let steps = accepted.budget(id, event);
        if steps > dearest.steps {
            dearest = Dearest { id, event, steps };
        }
    }
    dearest
}

/// The most inclusions of a chain, by the depths of objects; 0 for none.
pub fn longest_chain(depths: &[u8]) -> u8
    ensures { result ≡ greatest depths.now }
{
    let mut longest = 0u8;
    for depth in depths {
        longest = longest.max(*depth);
    }
    longest
}

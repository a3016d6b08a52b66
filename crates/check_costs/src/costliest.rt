//! The mask that is the costliest to hide.

ghost use Rattle.std.specs.Prelude.{◌≡◌};
ghost use Rattle.vt_stores.specs.Shapes.{shape_of};
ghost use Rattle.vt_verify.specs.Triggers.{is_mask};
ghost use Rattle.check_costs.specs.CostedPools.{IsCosted};
ghost use Rattle.check_costs.specs.Shares.{IsCostliestHide, steps_of};

use crate::costed_pool::CostedPool;
use crate::share::EventCost;
use vt_objects::{Event, Kind};

/// The Hide event of the mask that is the costliest to hide, if hiding a mask can take steps at all.
pub(crate) fn costliest_hide(pool: &CostedPool<'_>) -> Option<EventCost>
    requires { IsCosted pool.now }
    ensures { IsCostliestHide (shape_of pool.now.objects.now) result }
{
    let mut found = None;
    for (id, object) in pool.objects.entries() {
        if is_mask(object.kind()) {
            let hide = pool.event_cost(*id, Event::Hide.number());
            if hide.steps > steps_of(&found) {
                found = Some(hide);
            }
        }
    }
    found
}

fn is_mask(kind: Kind) -> bool
    ensures { result ≡ is_mask kind }
{
    matches!(kind, Kind::DataMask | Kind::AlarmMask)
}

/// The steps of an event; 0 if there is none.
pub(crate) fn steps_of(event: &Option<EventCost>) -> u64
    ensures { result ≡ steps_of event.now }
{
    match event {
        Some(event) => event.steps,
        None => 0,
    }
}

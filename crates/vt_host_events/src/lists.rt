//! Lists of events with spare capacity.

ghost use Rattle.std.specs.Prelude.{◌≡◌, ◌++◌};
ghost use Rattle.std.specs.Option.{option_to_list};
ghost use Rattle.vt_server.specs.Outputs.{HasSpare, UsesAtMost};

use crate::event::HostEvent;

/// Appends an event, if there is one. The list has spare capacity for it.
pub(crate) fn append(events: &mut Vec<HostEvent>, event: Option<HostEvent>)
    requires capacity { HasSpare 1 events.old }
    ensures items { events.new.items ≡ events.old.items ++ option_to_list event }
    ensures capacity { UsesAtMost 1 events.old events.new }
{
    if let Some(event) = event {
        let _done = events.push(event);
    }
}

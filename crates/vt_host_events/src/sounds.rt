//! The sounds that working sets ask for.

ghost use Rattle.std.specs.Prelude.{◌≡◌, ◌*◌, ◌++◌, length};
ghost use Rattle.std.specs.List.{flat_map};
ghost use Rattle.std.specs.Option.{option_to_list};
ghost use Rattle.vt_host_events.specs.Events as told;
ghost use Rattle.vt_server.specs.Outputs.{HasSpare, UsesAtMost};
ghost use Rattle.vt_server.specs.States.{state_of};
ghost use Rattle.vt_server.specs.Terminals.{pool_of};

use crate::event::HostEvent;
use crate::lists::append;
use crate::seen::SetSeen;
use vt_server::Terminal;

/// Appends the audio commands that the sets have done since they were seen.
pub(crate) fn tell_sounds(sets: &[SetSeen], after: &Terminal, events: &mut Vec<HostEvent>)
    requires capacity { HasSpare (2 * length sets.now) events.old }
    ensures items { events.new.items ≡ events.old.items ++ flat_map (told.sound_events (state_of after.now)) sets.now }
{
    for set in sets {
        append(events, signal_event(set, after));
        append(events, volume_event(set, after));
    }
}

/// The audio signal that a set asked for since it was seen, if it asked for one and has its pool.
fn signal_event(seen: &SetSeen, after: &Terminal) -> Option<HostEvent>
    ensures { result ≡ told.signal_event seen.now (pool_of (state_of after.now) seen.now.address) }
{
    let address = seen.address;
    let audio = after.set(address)?.audio();
    if audio.signals == seen.audio.signals {
        return None;
    }
    Some(HostEvent::Signal {
        address,
        signal: audio.signal,
    })
}

/// The audio volume that a set asked for since it was seen, if it asked for one and has its pool.
fn volume_event(seen: &SetSeen, after: &Terminal) -> Option<HostEvent>
    ensures { result ≡ told.volume_event seen.now (pool_of (state_of after.now) seen.now.address) }
{
    let address = seen.address;
    let audio = after.set(address)?.audio();
    if audio.volumes == seen.audio.volumes {
        return None;
    }
    Some(HostEvent::Volume {
        address,
        percent: audio.volume,
    })
}

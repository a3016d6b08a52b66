//! The events of an input: what has changed since it was seen before the input.

ghost use Rattle.std.specs.Prelude.{◌≡◌, ◌*◌, ◌++◌, length};
ghost use Rattle.std.specs.List.{flat_map, list_any};
ghost use Rattle.std.specs.Option.{option_to_list};
ghost use Rattle.vt_host_events.specs.Events as told;
ghost use Rattle.vt_server.specs.message.UploadEnds.{upload_end};
ghost use Rattle.vt_server.specs.Outputs.{HasSpare, UsesAtMost};
ghost use Rattle.vt_server.specs.States.{state_of};

use crate::event::{Alarm, HostEvent};
use crate::lists::append;
use crate::seen::{SetSeen, SourceSeen, alarm_of};
use vt_can::assigned::{END_OF_POOL, VT_TO_ECU};
use vt_server::{Output, ShownMasks, Terminal, UploadEnd};

/// Appends what became of the sets: texts that were aborted, and sets that are closed.
pub(crate) fn tell_sets(
    sets: &[SetSeen],
    after: &Terminal,
    acknowledged: Option<u8>,
    events: &mut Vec<HostEvent>,
)
    requires capacity { HasSpare (2 * length sets.now) events.old }
    ensures items { events.new.items ≡ events.old.items ++ flat_map (told.set_events (state_of after.now) acknowledged) sets.now }
    ensures capacity { UsesAtMost (2 * length sets.now) events.old events.new }
{
    for set in sets {
        append(events, text_event(set, after, acknowledged));
        append(events, closed_event(set, after));
    }
}

/// A message to a set has ended before its receipt was acknowledged.
fn text_event(set: &SetSeen, after: &Terminal, acknowledged: Option<u8>) -> Option<HostEvent>
    ensures { result ≡ told.text_event (state_of after.now) acknowledged set.now }
{
    let has_ended = !after.is_sending(set.address) && acknowledged != Some(set.address);
    if set.is_sending && (set.is_overdue || has_ended) {
        Some(HostEvent::TextAborted {
            address: set.address,
        })
    } else {
        None
    }
}

/// A set is closed: it fell silent, or it is not there any more.
fn closed_event(set: &SetSeen, after: &Terminal) -> Option<HostEvent>
    ensures { result ≡ told.closed_event (state_of after.now) set.now }
{
    let address = set.address;
    if set.is_silent {
        Some(HostEvent::SetSilent { address })
    } else if after.registered(address) {
        None
    } else {
        Some(HostEvent::SetClosed { address })
    }
}

/// Appends the events of the source of a frame: its set came, its upload goes on or ended, or its pool is deleted.
pub(crate) fn tell_source(
    source: Option<SourceSeen>,
    after: &Terminal,
    outputs: &[Output],
    events: &mut Vec<HostEvent>,
)
    requires capacity { HasSpare 4 events.old }
    ensures items { events.new.items ≡ events.old.items ++ told.source_events (state_of after.now) (upload_end after.now) outputs.now source }
    ensures capacity { UsesAtMost 4 events.old events.new }
{
    let Some(source) = source else {
        return;
    };
    if !after.registered(source.address) {
        return;
    }
    append(events, came_event(source));
    append(events, progress_event(source, after));
    append(events, deleted_event(source, after));
    append(events, end_event(source, after, outputs));
}

fn came_event(source: SourceSeen) -> Option<HostEvent>
    ensures { result ≡ told.came_event source }
{
    if source.has_set {
        return None;
    }
    Some(HostEvent::SetCame {
        address: source.address,
    })
}

/// The bytes of an upload have passed another multiple of 1,024.
fn progress_event(source: SourceSeen, after: &Terminal) -> Option<HostEvent>
    ensures { result ≡ told.progress_event (state_of after.now) source }
{
    let progress = after.progress(source.address);
    if source.came / 1024 >= progress.came / 1024 {
        return None;
    }
    Some(HostEvent::Uploaded {
        address: source.address,
        progress,
    })
}

fn deleted_event(source: SourceSeen, after: &Terminal) -> Option<HostEvent>
    ensures { result ≡ told.deleted_event (state_of after.now) source }
{
    if source.has_set && source.has_pool && after.set(source.address).is_none() {
        Some(HostEvent::PoolDeleted {
            address: source.address,
        })
    } else {
        None
    }
}

/// An upload ended: its reply was sent.
fn end_event(source: SourceSeen, after: &Terminal, outputs: &[Output]) -> Option<HostEvent>
    ensures { result ≡ told.end_event (upload_end after.now) outputs.now source }
{
    if !has_end_reply(outputs) {
        return None;
    }
    let address = source.address;
    Some(match after.upload_end()? {
        UploadEnd::Accepted if source.has_pool => HostEvent::PoolUpdated { address },
        UploadEnd::Accepted => HostEvent::PoolAccepted { address },
        UploadEnd::Faulty(fault) => HostEvent::PoolFaulty { address, fault },
        UploadEnd::Refused(rule) => HostEvent::PoolRefused { address, rule },
    })
}

/// Whether the reply to End of Object Pool is among the outputs.
fn has_end_reply(outputs: &[Output]) -> bool
    ensures { result ≡ list_any told.is_end_reply outputs.now }
{
    outputs.iter().any(|output| is_end_reply(output))
}

/// Whether an output is the reply to End of Object Pool.
fn is_end_reply(output: &Output) -> bool
    ensures { result ≡ told.is_end_reply output.now }
{
    match output {
        Output::Frame(frame) => {
            frame.id.pgn() == VT_TO_ECU && frame.bytes.first() == Some(&END_OF_POOL)
        }
        Output::Refused(_) => false,
    }
}

/// Appends the loss of the address, another display, and another alarm.
pub(crate) fn tell_shown(
    display: ShownMasks,
    alarm: Option<Alarm>,
    after: &Terminal,
    events: &mut Vec<HostEvent>,
)
    requires capacity { HasSpare 3 events.old }
    ensures items { events.new.items ≡ events.old.items ++ told.shown_events (state_of after.now) display alarm }
    ensures capacity { UsesAtMost 3 events.old events.new }
{
    append(events, lost_event(after));
    append(events, shown_event(display, after.display()));
    append(events, alarm_event(alarm, alarm_of(after)));
}

fn lost_event(after: &Terminal) -> Option<HostEvent>
    ensures { result ≡ told.lost_event (state_of after.now) }
{
    if after.is_lost() {
        Some(HostEvent::AddressLost {
            address: after.own(),
        })
    } else {
        None
    }
}

fn shown_event(was: ShownMasks, now: ShownMasks) -> Option<HostEvent>
    ensures { result ≡ told.shown_event was now }
{
    if was == now {
        None
    } else {
        Some(HostEvent::Shown(now))
    }
}

fn alarm_event(was: Option<Alarm>, now: Option<Alarm>) -> Option<HostEvent>
    ensures { result ≡ told.alarm_event was now }
{
    match (was, now) {
        (None, None) => None,
        (Some(was), None) => Some(HostEvent::AlarmOver {
            address: was.address,
        }),
        (None, Some(now)) => Some(HostEvent::Alarm(now)),
        (Some(was), Some(now)) => {
            if was == now {
                None
            } else {
                Some(HostEvent::Alarm(now))
            }
        }
    }
}

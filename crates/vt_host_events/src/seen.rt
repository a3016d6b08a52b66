//! What a terminal has before an input, or after it.

ghost use Rattle.std.specs.Prelude.{◌≡◌};
ghost use Rattle.vt_host_events.specs.Seen.{alarm_of, audio_of, set_seen, silent_by, source_seen};
ghost use Rattle.vt_server.specs.States.{state_of};
ghost use Rattle.vt_server.specs.Terminals.{pool_of};

use crate::event::Alarm;
use vt_machine::Audio;
use vt_objects::Object;
use vt_server::Terminal;

/// A working set before an input.
#[derive(Clone, Copy)]
pub(crate) struct SetSeen {
    pub(crate) address: u8,
    /// Whether a message in packets is being sent to it.
    pub(crate) is_sending: bool,
    /// Whether that message is overdue at the time of the input.
    pub(crate) is_overdue: bool,
    /// Whether the set is silent at the time of the input.
    pub(crate) is_silent: bool,
    /// The audio commands that it has done.
    pub(crate) audio: Audio,
}

/// The source of a frame before it.
#[derive(Clone, Copy)]
pub(crate) struct SourceSeen {
    pub(crate) address: u8,
    /// Whether it has a set that is not silent at the time of the frame.
    pub(crate) has_set: bool,
    /// Whether it has a pool.
    pub(crate) has_pool: bool,
    /// The bytes of an upload that have come.
    pub(crate) came: usize,
}

/// The set at an address, at a time for which sessions time out and sets fall silent, if there is one.
pub(crate) fn set_seen(terminal: &Terminal, time: Option<u64>, address: u8) -> SetSeen
    ensures { result ≡ set_seen (state_of terminal.now) time address }
{
    SetSeen {
        address,
        is_sending: terminal.is_sending(address),
        is_overdue: match time {
            Some(time) => terminal.is_overdue_to(address, time),
            None => false,
        },
        is_silent: is_silent(terminal, time, address),
        audio: audio_of(terminal, address),
    }
}

/// The audio commands that the set at an address has done; none without a pool.
fn audio_of(terminal: &Terminal, address: u8) -> Audio
    ensures { result ≡ audio_of (pool_of (state_of terminal.now) address) }
{
    match terminal.set(address) {
        Some(live) => live.audio(),
        None => Audio::new(),
    }
}

fn is_silent(terminal: &Terminal, time: Option<u64>, address: u8) -> bool
    ensures { result ≡ silent_by time (state_of terminal.now) address }
{
    match time {
        Some(time) => terminal.is_silent_at(address, time),
        None => false,
    }
}

/// The source of a frame at a time.
pub(crate) fn source_seen(terminal: &Terminal, time: Option<u64>, address: u8) -> SourceSeen
    ensures { result ≡ source_seen (state_of terminal.now) time address }
{
    SourceSeen {
        address,
        has_set: terminal.registered(address) && !is_silent(terminal, time, address),
        has_pool: terminal.set(address).is_some(),
        came: terminal.progress(address).came,
    }
}

/// The alarm mask that a terminal shows, if it shows one.
pub(crate) fn alarm_of(terminal: &Terminal) -> Option<Alarm>
    ensures { result ≡ alarm_of (state_of terminal.now) }
{
    let address = terminal.shown()?;
    let live = terminal.set(address)?;
    let mask = live.active_mask();
    let Some(Object::AlarmMask(alarm)) = live.get(mask) else {
        return None;
    };
    Some(Alarm {
        address,
        mask,
        priority: alarm.priority,
        acoustic: alarm.acoustic,
    })
}

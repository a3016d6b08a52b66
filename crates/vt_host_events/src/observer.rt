//! A look at a terminal before an input, and its events after it.

ghost use Rattle.std.specs.Prelude.{◌≡◌, [], true, false, IsOk, OnOk};
ghost use Rattle.std.specs.Option.{option_map};
ghost use Rattle.vt_can.specs.frames.Frame.{source_of};
ghost use Rattle.vt_host_events.specs.Events.{HasRoom, HasSeen, IsObserving, TellsEvents, acknowledged_by, time_of};
ghost use Rattle.vt_host_events.specs.Seen.{sets_seen, source_seen};
ghost use Rattle.vt_server.specs.States.{state_of};

use crate::OutOfMemory;
use crate::event::{Alarm, HostEvent};
use crate::seen::{SetSeen, SourceSeen, alarm_of, set_seen, source_seen};
use crate::sounds::tell_sounds;
use crate::telling::{tell_sets, tell_shown, tell_source};
use std::alloc::Global;
use vt_can::Frame;
use vt_can::assigned::VT_TO_ECU;
use vt_objects::ObjectId;
use vt_server::{Output, ShownMasks, Terminal};
use vt_transport::ends_message;

/// What a terminal had before an input, and the events of that input.
#[derive(Drop)]
pub struct Observer {
    pub(crate) sets: Vec<SetSeen>,
    pub(crate) source: Option<SourceSeen>,
    pub(crate) display: ShownMasks,
    pub(crate) alarm: Option<Alarm>,
    // Whether the terminal has no address any more: then no input has an effect.
    pub(crate) is_lost: bool,
    /// The events of the last input, after `tell`.
    pub events: Vec<HostEvent>,
}

impl Observer {
    /// An observer that has not looked at a terminal yet. Does not allocate.
    pub fn new(alloc: Global) -> Observer
        ensures { result.events.items ≡ [] }
    {
        Observer {
            sets: Vec::new(alloc),
            source: None,
            display: ShownMasks {
                address: 0,
                mask: ObjectId::NULL,
                soft_keys: ObjectId::NULL,
            },
            alarm: None,
            is_lost: false,
            events: Vec::new(alloc),
        }
    }

    /// Looks at a terminal before an input: a frame with its time, a time alone, or neither for an action at the latest time so far.
    /// Reserves the memory that `tell` needs; for a terminal that lost its address it reserves none. After `OutOfMemory` no event is left.
    pub fn look(
        &mut self,
        terminal: &Terminal,
        time: Option<u64>,
        frame: Option<&Frame>,
    ) -> Result<(), OutOfMemory>
        ensures ok { OnOk result (IsObserving (state_of terminal.now) time (option_map (λ f. f.now) frame.entry) self.new) }
        ensures lost { (state_of terminal.now).lost ≡ true → IsOk result }
        ensures none { self.new.events.items ≡ [] }
    {
        self.events.clear();
        self.is_lost = terminal.is_lost();
        if self.is_lost {
            return Ok(());
        }
        self.look_at(terminal, time, frame)
    }

    /// Looks at a terminal that has its address.
    fn look_at(
        &mut self,
        terminal: &Terminal,
        time: Option<u64>,
        frame: Option<&Frame>,
    ) -> Result<(), OutOfMemory>
        ensures ok { OnOk result (HasSeen (state_of terminal.now) time (option_map (λ f. f.now) frame.entry) self.new) }
        ensures lost { self.new.is_lost ≡ self.old.is_lost }
        ensures events { self.new.events.items ≡ self.old.events.items }
    {
        let now = later(terminal, time);
        look_at_sets(terminal, now, &mut self.sets)?;
        let count = self.sets.len();
        self.events
            .reserve(count.saturating_mul(4).saturating_add(7))?;
        self.source = source_of(terminal, now, frame);
        self.display = terminal.display();
        self.alarm = alarm_of(terminal);
        Ok(())
    }

    /// Reports the events of the input in `events`, from the terminal after it, the frame if it was one, and what was sent.
    pub fn tell(&mut self, terminal: &Terminal, frame: Option<&Frame>, outputs: &[Output])
        requires room { self.old.is_lost ≡ false → HasRoom self.old }
        requires none { self.old.events.items ≡ [] }
        ensures told { TellsEvents self.old (option_map (λ f. f.now) frame.entry) outputs.now terminal.now self.new }
        ensures rest { self.new ≡ record self.old { events = self.new.events } }
    {
        if self.is_lost {
            return;
        }
        let acknowledged = acknowledged_by(terminal, frame);
        tell_sets(&self.sets, terminal, acknowledged, &mut self.events);
        tell_source(self.source, terminal, outputs, &mut self.events);
        tell_shown(self.display, self.alarm, terminal, &mut self.events);
        tell_sounds(&self.sets, terminal, &mut self.events);
    }
}

/// The time of an input, if it has one: it never goes back.
fn later(terminal: &Terminal, time: Option<u64>) -> Option<u64>
    ensures { result ≡ time_of (state_of terminal.now) time }
{
    match time {
        Some(time) => Some(time.max(terminal.time())),
        None => None,
    }
}

/// The source of a frame, if an input is one.
fn source_of(terminal: &Terminal, time: Option<u64>, frame: Option<&Frame>) -> Option<SourceSeen>
    ensures { result ≡ option_map (λ f. source_seen (state_of terminal.now) time (source_of f)) (option_map (λ f. f.now) frame.entry) }
{
    match frame {
        Some(frame) => Some(source_seen(terminal, time, frame.id.source())),
        None => None,
    }
}

/// Looks at all sets in the order of their registration, at a time for which sessions time out and sets fall silent, if there is one.
fn look_at_sets(
    terminal: &Terminal,
    time: Option<u64>,
    sets: &mut Vec<SetSeen>,
) -> Result<(), OutOfMemory>
    ensures { OnOk result (sets.new.items ≡ sets_seen (state_of terminal.now) time) }
{
    sets.clear();
    for index in 0..terminal.count_of_sets() {
        if let Some(set) = terminal.set_by_index(index) {
            sets.push(set_seen(terminal, time, set.address()))?;
        }
    }
    Ok(())
}

/// The source of a frame that acknowledges the end of a message from the terminal.
fn acknowledged_by(terminal: &Terminal, frame: Option<&Frame>) -> Option<u8>
    ensures { result ≡ acknowledged_by (state_of terminal.now).claims.own (option_map (λ f. f.now) frame.entry) }
{
    let frame = frame?;
    if ends_message(terminal.own(), VT_TO_ECU, frame) {
        Some(frame.id.source())
    } else {
        None
    }
}

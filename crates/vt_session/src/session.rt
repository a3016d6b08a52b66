//! A terminal with the outputs that wait to be taken and the text written last, and the inputs that it takes.

ghost use Rattle.std.specs.Prelude.{◌≡◌, [], ◌∷◌, true, false, Some, IsSomeAnd};
ghost use Rattle.std.specs.Option.{option_map};
ghost use Rattle.vt_can.specs.frames.Frame.{source_of};
ghost use Rattle.vt_host_events.specs.Events.{HasRoom, TellsEvents};
ghost use Rattle.vt_session.specs.Calls.{Acts, Hears, Texts, Ticks};
ghost use Rattle.vt_session.specs.Inputs.{action_input, frame_input, frame_of, text_input, time_of};
ghost use Rattle.vt_server.specs.States.{state_of};
ghost use Rattle.vt_server.specs.declared.input.Input.TheVariants as inputs;
ghost use Rattle.vt_session.specs.Looks.{IsUntouched, LooksOn, next_look};
ghost use Rattle.vt_session.specs.Sessions.{Answers, AnswersAt, AnswersWhen, Begins, Takes, TakesBoth, closed, input_at, profile_of};

use crate::status::{DONE, NO_MEMORY, NO_SUCH, NOT_BEGUN, WAITING};
use arrayvec::ArrayVec;
use byteorder::{ByteOrder, LittleEndian};
use std::alloc::Global;
use vt_can::{Action, CanId, Frame};
use vt_host_events::Observer;
use vt_names::Name;
use vt_node::echo;
use vt_server::{Input, Output, Profile, Terminal};

/// The time of an action that means the latest time so far. Nothing times out for it.
pub const LATEST: u64 = u64::MAX;

/// A terminal, the outputs of its last input, and the text written last.
#[derive(Drop)]
pub struct Session {
    pub(crate) terminal: Terminal,
    // The outputs of the last input, and behind them its events. Those from the index `next` on wait to be taken.
    pub(crate) outputs: Vec<Output>,
    pub(crate) observer: Observer,
    pub(crate) next: usize,
    // The text written last: of the screen, or of what a display read.
    pub(crate) text: Vec<u8>,
    // Another number than before, wherever the picture of the shown set may have changed.
    pub(crate) looks: u64,
    // Whether the own address is one that a node may have. A session without such an address takes no input.
    pub(crate) begun: bool,
}

impl Session {
    /// The terminal as it is now.
    pub fn terminal(&self) -> &Terminal
        ensures { result.now ≡ self.now.terminal }
    {
        &self.terminal
    }

    /// A number that changes with each call that may have changed the picture of the shown set.
    pub fn look(&self) -> u64
        ensures { result ≡ self.now.looks }
    {
        self.looks
    }

    /// The allocator of the session's memory.
    pub fn allocator(&self) -> Global {
        *self.text.allocator()
    }
}

/// Begins a session with a new terminal. If its own address is above 253, the session takes no input.
pub fn begin(
    alloc: Global,
    own: u32,
    name: u64,
    memory: u32,
    keys: u32,
    fonts: u32,
    hardware: u32,
    size: u32,
) -> Session
    ensures { Begins own name (profile_of memory keys fonts hardware size) result }
{
    begin_with(
        alloc,
        own,
        name,
        profile_of(memory, keys, fonts, hardware, size),
    )
}

/// Begins a session with a new terminal of this profile. If its own address is above 253, the session takes no input.
pub fn begin_with(alloc: Global, own: u32, name: u64, profile: Profile) -> Session
    ensures { Begins own name profile result }
{
    let begun = own <= 253;
    let address = if begun { own as u8 } else { 0 };
    Session {
        terminal: Terminal::new_with(alloc, address, Name::from_raw(name), profile),
        outputs: Vec::new(alloc),
        observer: Observer::new(alloc),
        next: 0,
        text: Vec::new(alloc),
        looks: 0,
        begun,
    }
}

/// The profile in five numbers, each from its lowest byte on.
fn profile_of(memory: u32, keys: u32, fonts: u32, hardware: u32, size: u32) -> Profile
    ensures { result ≡ profile_of memory keys fonts hardware size }
{
    let keys = keys.to_le_bytes();
    let fonts = fonts.to_le_bytes();
    let hardware = hardware.to_le_bytes();
    Profile {
        memory,
        soft_key_width: keys[0],
        soft_key_height: keys[1],
        virtual_soft_keys: keys[2],
        physical_soft_keys: keys[3],
        small_fonts: fonts[0],
        large_fonts: fonts[1],
        font_styles: fonts[2],
        boot_time: hardware[0],
        graphic_type: hardware[1],
        hardware: hardware[2],
        width: (size & 0xFFFF) as u16,
        height: (size >> 16) as u16,
    }
}

/// Ends a session.
pub fn discard(session: Session) {
    drop(session);
}

/// Receives a frame of the bus at a time in microseconds, with an identifier and the lowest `count` bytes of `bits` as
/// its data. Returns a status.
pub fn hear(session: &mut Session, time: u64, id: u32, count: u32, bits: u64) -> u32
    ensures { Hears session.old time id count bits session.new result }
{
    take(session, frame_input(time, id, count, bits))
}

/// Advances the time to `time`, in microseconds. Returns a status.
pub fn tick(session: &mut Session, time: u64) -> u32
    ensures { Ticks session.old time session.new result }
{
    if let Some(refusal) = closed(session) {
        return refusal;
    }
    session.outputs.clear();
    session.next = 0;
    let frame = echo(session.terminal.own());
    take_one(session, &Input::Frame { time, frame })
}

/// Receives a frame of the bus at a time in microseconds. Returns a status.
pub fn hear_frame(session: &mut Session, time: u64, frame: Frame) -> u32
    ensures { Answers session.old (Some (inputs.Frame time frame)) session.new result }
{
    take(session, Some(Input::Frame { time, frame }))
}

/// Does an action of the operator at a time in microseconds, or at the latest time so far if the time is `LATEST`.
/// Returns a status.
pub fn operate(session: &mut Session, time: u64, action: Action<'_>) -> u32
    ensures { AnswersWhen session.old time (Some (inputs.Operator action.entry)) session.new result }
{
    take_when(session, time, Some(Input::Operator(action)))
}

/// Does an action of the operator by its number, at a time as for `operate`: 0 press, 1 release, 2 select, 3 number, 4
/// the set at an address. Returns a status.
pub fn act(session: &mut Session, time: u64, kind: u32, id: u32, number: u32) -> u32
    ensures { Acts session.old time kind id number session.new result }
{
    take_when(session, time, action_input(kind, id, number))
}

/// Enters a text of the operator, at a time as for `operate`. Returns a status.
pub fn text(session: &mut Session, time: u64, id: u32, text: &[u8]) -> u32
    ensures { Texts session.old time id text.entry session.new result }
{
    take_when(session, time, text_input(id, text))
}

/// Takes an input, if it is one.
fn take(session: &mut Session, input: Option<Input<'_>>) -> u32
    ensures { Answers session.old input.entry session.new result }
{
    if let Some(refusal) = closed(session) {
        return refusal;
    }
    let Some(input) = input else {
        return NO_SUCH;
    };
    session.outputs.clear();
    session.next = 0;
    take_one(session, &input)
}

/// Takes an input at a time, or at the latest time so far, if it is one.
fn take_when(session: &mut Session, time: u64, input: Option<Input<'_>>) -> u32
    ensures { AnswersWhen session.old time input.entry session.new result }
{
    if time == LATEST {
        take(session, input)
    } else {
        take_at(session, time, input)
    }
}

/// Moves the time on, and then takes an input, if it is one.
fn take_at(session: &mut Session, time: u64, input: Option<Input<'_>>) -> u32
    ensures { AnswersAt session.old time input.entry session.new result }
{
    if let Some(refusal) = closed(session) {
        return refusal;
    }
    let Some(input) = input else {
        return NO_SUCH;
    };
    session.outputs.clear();
    session.next = 0;
    take_both(session, time, input)
}

/// Takes one input. No output waits. The machine does not stick at it.
fn take_one(session: &mut Session, input: &Input<'_>) -> u32
    requires none { session.old.outputs.items ≡ [] }
    requires first { session.old.next ≡ 0 }
    ensures { Takes session.old (input.now ∷ []) session.new result }
{
    vt_laws::the_machine_never_sticks();
    vt_laws::others_keep_objects();
    vt_laws::profiles_are_kept();
    let was = session.terminal.shown();
    let (time, frame) = moment_of(input);
    match session.observer.look(&session.terminal, time, frame) {
        Ok(()) => {}
        Err(_) => return NO_MEMORY,
    }
    match session.terminal.step(input, &mut session.outputs) {
        Ok(()) => {
            tell(session, frame);
            note_look(session, was, source_of(input));
            DONE
        }
        Err(_) => NO_MEMORY,
    }
}

/// Moves the time on, and then takes an input. No output waits. The machine does not stick at them.
fn take_both(session: &mut Session, time: u64, input: Input<'_>) -> u32
    requires none { session.old.outputs.items ≡ [] }
    requires first { session.old.next ≡ 0 }
    ensures { TakesBoth session.old (input_at session.old time input.entry) session.new result }
{
    vt_laws::the_machine_never_sticks();
    vt_laws::echoes_are_ticks();
    let frame = echo(session.terminal.own());
    let inputs = [Input::Frame { time, frame }, input];
    let (time, frame) = moment_of(&inputs[0]);
    match session.observer.look(&session.terminal, time, frame) {
        Ok(()) => {}
        Err(_) => return NO_MEMORY,
    }
    match session.terminal.run(&inputs, &mut session.outputs) {
        Ok(()) => {
            tell(session, frame);
            note_change(session);
            DONE
        }
        Err(fault) if fault.at > 0 => {
            tell(session, frame);
            note_change(session);
            NO_MEMORY
        }
        Err(_) => NO_MEMORY,
    }
}

/// Tells the events of what was taken, of which the first is a frame or an action.
fn tell(session: &mut Session, frame: Option<&Frame>)
    requires room { session.old.observer.is_lost ≡ false → HasRoom session.old.observer }
    requires none { session.old.observer.events.items ≡ [] }
    ensures told { TellsEvents session.old.observer (option_map (λ f. f.now) frame.entry) session.old.outputs.items session.old.terminal session.new.observer }
    ensures rest { session.new ≡ record session.old { observer = session.new.observer } }
{
    session
        .observer
        .tell(&session.terminal, frame, &session.outputs);
}

/// The time and the frame of an input, if it is a frame.
fn moment_of<'a>(input: &'a Input<'_>) -> (Option<u64>, Option<&'a Frame>)
    ensures time { result.0 ≡ time_of input.now }
    ensures frame { option_map (λ f. f.now) result.1 ≡ frame_of input.now }
{
    match input {
        Input::Frame { time, frame } => (Some(*time), Some(frame)),
        Input::Operator(_) => (None, None),
    }
}

/// The source of an input, if it is a frame.
fn source_of(input: &Input<'_>) -> Option<u8>
    ensures { result ≡ option_map source_of (frame_of input.now) }
{
    match input {
        Input::Frame { frame, .. } => Some(frame.id.source()),
        Input::Operator(_) => None,
    }
}

/// Notes that the picture may have changed, unless what was done is a frame of a source that cannot have changed it.
fn note_look(session: &mut Session, was: Option<u8>, source: Option<u8>)
    ensures look { LooksOn session.old.looks session.new.looks (IsSomeAnd source (λ s. IsUntouched was (state_of session.new.terminal) s)) }
    ensures rest { session.new ≡ record session.old { looks = session.new.looks } }
{
    if !is_untouched(&session.terminal, was, source) {
        note_change(session);
    }
}

/// Notes that the picture may have changed.
pub(crate) fn note_change(session: &mut Session)
    ensures next { session.new.looks ≡ next_look session.old.looks }
    ensures rest { session.new ≡ record session.old { looks = session.new.looks } }
{
    session.looks = session.looks.wrapping_add(1);
}

/// Whether the shown set is the same as before, still has a pool, and is not at the address of a source.
fn is_untouched(terminal: &Terminal, was: Option<u8>, source: Option<u8>) -> bool
    ensures { result ≡ true → IsSomeAnd source (λ s. IsUntouched was (state_of terminal.now) s) }
{
    let Some(source) = source else {
        return false;
    };
    match (was, terminal.shown()) {
        (None, None) => true,
        (Some(was), Some(shown)) => {
            was == shown && shown != source && terminal.set(shown).is_some()
        }
        _ => false,
    }
}

/// Why a session takes no input, if it takes none.
pub(crate) fn closed(session: &Session) -> Option<u32>
    ensures { result ≡ closed session.now }
{
    if !session.begun {
        return Some(NOT_BEGUN);
    }
    if session.next < session.outputs.len() + session.observer.events.len() {
        return Some(WAITING);
    }
    None
}

/// A frame with an identifier and the first bytes of a number.
pub(crate) fn frame_input(time: u64, id: u32, count: u32, bits: u64) -> Option<Input<'static>>
    ensures { result ≡ frame_input time id count bits }
{
    if count > 8 {
        return None;
    }
    let id = CanId::from_raw(id)?;
    let mut eight = [0; 8];
    LittleEndian::write_u64(&mut eight, bits);
    let mut bytes = ArrayVec::from(eight);
    bytes.truncate(count as usize);
    let frame = Frame { id, bytes };
    Some(Input::Frame { time, frame })
}

/// An action of the operator, by its number.
fn action_input(kind: u32, id: u32, number: u32) -> Option<Input<'static>>
    ensures { result ≡ action_input kind id number }
{
    let id = u16::try_from(id).ok()?;
    match kind {
        0 => Some(Input::Operator(Action::Press(id))),
        1 => Some(Input::Operator(Action::Release(id))),
        2 => Some(Input::Operator(Action::Select(id))),
        3 => Some(Input::Operator(Action::Number(id, number))),
        4 => {
            let address = u8::try_from(number).ok()?;
            Some(Input::Operator(Action::Set(address)))
        }
        _ => None,
    }
}

/// A text of the operator.
fn text_input(id: u32, text: &[u8]) -> Option<Input<'_>>
    ensures { result ≡ text_input id text.entry }
{
    let id = u16::try_from(id).ok()?;
    Some(Input::Operator(Action::Text(id, text)))
}

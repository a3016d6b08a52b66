//! The outputs and events that wait to be taken, and what the terminal sends by itself.

ghost use Rattle.std.specs.List.{slice_get};
ghost use Rattle.std.specs.Option.{option_map};
ghost use Rattle.std.specs.Prelude.{◌≡◌, ◌+◌, ◌<◌, [], None, true, drop, get_or, is_some, length};
ghost use Rattle.vt_session.specs.Calls.{Claims, Nexts, TellsCount, TellsData, TellsId, SendsStatus};
ghost use Rattle.vt_session.specs.Items.{item_value};
ghost use Rattle.vt_session.specs.Outputs.{fault_number, kind_of, word_at};
ghost use Rattle.vt_session.specs.Sessions.{Sends, closed, items, latest, waiting};

use crate::events::{address_of_event, kind_of_event, numbers_of_event};
use crate::session::{Session, closed};
use crate::status::{DONE, NO_MEMORY};
use vt_can::Frame;
use vt_host_events::HostEvent;
use vt_server::{OperatorFault, OperatorRefusal, Output};

/// Takes the next output or event: 0 if none waits, 1 for a frame, 2 for a refusal to the operator, 3 for an event.
pub fn next(session: &mut Session) -> u32
    ensures { Nexts session.old session.new result }
{
    let Some(kind) = kind_at(session, session.next) else {
        return next_of_none(session);
    };
    session.next += 1;
    kind
}

/// Forgets the outputs and the events, of which none waits.
fn next_of_none(session: &mut Session) -> u32
    requires { waiting session.old ≡ [] }
    ensures { Nexts session.old session.new result }
{
    session.outputs.clear();
    session.observer.events.clear();
    session.next = 0;
    0
}

/// What a host takes: an output of the terminal, or an event.
#[derive(Clone, Copy)]
pub enum HostItem<'a> {
    /// A frame to send, or a refusal to the operator.
    Sent(&'a Output),
    /// An event.
    Told(HostEvent),
}

/// The output or event at an index.
fn item_at(session: &Session, index: usize) -> Option<HostItem<'_>>
    ensures item { option_map item_value result ≡ slice_get (items session.now) index }
    ensures within { is_some result ≡ true → index < length session.now.outputs.items + length session.now.observer.events.items }
{
    let count = session.outputs.len();
    if index < count {
        return Some(HostItem::Sent(&session.outputs[index]));
    }
    match session.observer.events.get(index - count) {
        Some(event) => Some(HostItem::Told(*event)),
        None => None,
    }
}

/// The kind of the output or event at an index.
fn kind_at(session: &Session, index: usize) -> Option<u32>
    ensures kind { result ≡ option_map kind_of (slice_get (items session.now) index) }
    ensures within { is_some result ≡ true → index < length session.now.outputs.items + length session.now.observer.events.items }
{
    match item_at(session, index) {
        Some(HostItem::Sent(Output::Frame(_))) => Some(1),
        Some(HostItem::Sent(Output::Refused(_))) => Some(2),
        Some(HostItem::Told(_)) => Some(3),
        None => None,
    }
}

/// The output or event taken last.
pub fn latest(session: &Session) -> Option<HostItem<'_>>
    ensures { option_map item_value result ≡ latest session.now }
{
    if session.next == 0 {
        return None;
    }
    item_at(session, session.next - 1)
}

/// The identifier of the frame taken last, the number of the refusal, or the kind of the event.
pub fn output_id(session: &mut Session) -> u32
    ensures { TellsId session.old session.new result }
{
    match latest(session) {
        Some(HostItem::Sent(Output::Frame(frame))) => frame.id.raw(),
        Some(HostItem::Sent(Output::Refused(fault))) => fault_number(*fault),
        Some(HostItem::Told(event)) => kind_of_event(event),
        None => 0,
    }
}

/// The number of data bytes of the frame taken last, or the address of the event.
pub fn output_count(session: &mut Session) -> u32
    ensures { TellsCount session.old session.new result }
{
    match latest(session) {
        Some(HostItem::Sent(Output::Frame(frame))) => frame.bytes.len() as u32,
        Some(HostItem::Sent(Output::Refused(_))) => 0,
        Some(HostItem::Told(event)) => u32::from(address_of_event(event)),
        None => 0,
    }
}

/// The data bytes of the frame taken last, from the lowest byte on, or the two numbers of the event, the first lowest.
pub fn output_data(session: &mut Session) -> u64
    ensures { TellsData session.old session.new result }
{
    match latest(session) {
        Some(HostItem::Sent(Output::Frame(frame))) => word_at(frame.bytes.as_slice(), 0),
        Some(HostItem::Sent(Output::Refused(_))) => 0,
        Some(HostItem::Told(event)) => numbers_of_event(event),
        None => 0,
    }
}

/// Eight bytes from an index on, the first lowest, and 0 for each past the end.
pub(crate) fn word_at(bytes: &[u8], at: u64) -> u64
    ensures { result ≡ word_at bytes.now at }
{
    let rest = rest_from(bytes, at);
    u64::from_le_bytes([
        byte_at(rest, 0),
        byte_at(rest, 1),
        byte_at(rest, 2),
        byte_at(rest, 3),
        byte_at(rest, 4),
        byte_at(rest, 5),
        byte_at(rest, 6),
        byte_at(rest, 7),
    ])
}

/// The bytes from an index on.
fn rest_from(bytes: &[u8], at: u64) -> &[u8]
    ensures { result.now ≡ drop at bytes.now }
{
    bytes.get(at as usize..).unwrap_or(&[])
}

fn byte_at(bytes: &[u8], at: usize) -> u8
    ensures { result ≡ get_or bytes.now at 0 }
{
    bytes.get(at).copied().unwrap_or(0)
}

/// The number of a refusal (docs/PROFILE.md, "Refusals").
fn fault_number(fault: OperatorFault) -> u32
    ensures { result ≡ fault_number fault }
{
    match fault {
        OperatorFault::Refused(OperatorRefusal::NotShown) => 1,
        OperatorFault::Refused(OperatorRefusal::Disabled) => 2,
        OperatorFault::Refused(OperatorRefusal::Range) => 3,
        OperatorFault::Refused(OperatorRefusal::TooLong) => 4,
        OperatorFault::Refused(OperatorRefusal::WrongKind) => 5,
        OperatorFault::Refused(OperatorRefusal::NotPressed) => 6,
        OperatorFault::Refused(OperatorRefusal::Held) => 7,
        OperatorFault::Busy => 8,
        OperatorFault::NoSet => 9,
    }
}

/// Sends the address claim, which a host does at its start. Returns a status.
pub fn claim(session: &mut Session) -> u32
    ensures { Claims session.old session.new result }
{
    if let Some(refusal) = closed(session) {
        return refusal;
    }
    let frame = session.terminal.claim();
    send(session, frame)
}

/// Sends the status message, which a host does each second. Returns a status.
pub fn status(session: &mut Session) -> u32
    ensures { SendsStatus session.old session.new result }
{
    if let Some(refusal) = closed(session) {
        return refusal;
    }
    let frame = session.terminal.status();
    send(session, frame)
}

/// Makes a frame the only output that waits, unless the terminal lost its address.
fn send(session: &mut Session, frame: Frame) -> u32
    requires { closed session.old ≡ None }
    ensures { Sends session.old frame session.new result }
{
    session.outputs.clear();
    session.observer.events.clear();
    session.next = 0;
    if session.terminal.is_lost() {
        return DONE;
    }
    match session.outputs.push(Output::Frame(frame)) {
        Ok(()) => DONE,
        Err(_) => NO_MEMORY,
    }
}

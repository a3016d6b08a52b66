//! The events for a host.

use vt_machine::Signal;
use vt_objects::ObjectId;
use vt_pool::PoolFault;
use vt_server::{BrokenRule, Progress, ShownMasks};

/// An event that a host receives after an input. Its address is that of a working set. For `AddressLost` it is the terminal's own, and for
/// `Shown` that of the shown set, or 254 if none is shown. docs/PROFILE.md, "Events for a host".
#[derive(Clone, Copy)]
pub enum HostEvent {
    /// A set registered at an address without one, or with one that fell silent.
    SetCame { address: u8 },
    /// A set fell silent and is closed.
    SetSilent { address: u8 },
    /// A set is closed because its NAME no longer holds its address.
    SetClosed { address: u8 },
    /// The first pool of a set is accepted.
    PoolAccepted { address: u8 },
    /// An update of a set's pool is accepted.
    PoolUpdated { address: u8 },
    /// An upload is refused because a record has a fault.
    PoolFaulty { address: u8, fault: PoolFault },
    /// An upload is refused because the objects break a rule.
    PoolRefused { address: u8, rule: BrokenRule },
    /// The implement deleted the pool of its set.
    PoolDeleted { address: u8 },
    /// The bytes of an upload have passed another multiple of 1,024.
    Uploaded { address: u8, progress: Progress },
    /// A text to the implement ended without an acknowledgement of its end.
    TextAborted { address: u8 },
    /// Another mask is shown, or another set, or other soft keys.
    Shown(ShownMasks),
    /// An alarm mask is shown, or its priority or its acoustic signal has changed.
    Alarm(Alarm),
    /// No alarm mask is shown any more.
    AlarmOver { address: u8 },
    /// The set requests an audio signal. If it requests several in one input, this is the last.
    Signal { address: u8, signal: Signal },
    /// The set requests an audio volume in percent. If it requests several in one input, this is the last.
    Volume { address: u8, percent: u8 },
    /// A lower NAME took the terminal's address.
    AddressLost { address: u8 },
}

/// An alarm mask that is shown.
#[derive(Clone, Copy, PartialEq, Eq)]
pub struct Alarm {
    /// The address of its set.
    pub address: u8,
    /// The alarm mask.
    pub mask: ObjectId,
    /// Its priority: the lowest number is the most urgent.
    pub priority: u8,
    /// The number of its acoustic signal.
    pub acoustic: u8,
}

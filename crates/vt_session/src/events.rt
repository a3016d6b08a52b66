//! Events for a host in numbers (docs/EMBEDDING.md, "Events").

ghost use Rattle.std.specs.Prelude.{◌≡◌};
ghost use Rattle.vt_session.specs.Events as numbers;

use vt_host_events::HostEvent;
use vt_pool::PoolFault;

/// The kind of an event, 1 to 16.
pub(crate) fn kind_of_event(event: HostEvent) -> u32
    ensures { result ≡ numbers.kind_of_event event }
{
    match event {
        HostEvent::SetCame { .. } => 1,
        HostEvent::SetSilent { .. } => 2,
        HostEvent::SetClosed { .. } => 3,
        HostEvent::PoolAccepted { .. } => 4,
        HostEvent::PoolUpdated { .. } => 5,
        HostEvent::PoolFaulty { .. } => 6,
        HostEvent::PoolRefused { .. } => 7,
        HostEvent::PoolDeleted { .. } => 8,
        HostEvent::Uploaded { .. } => 9,
        HostEvent::TextAborted { .. } => 10,
        HostEvent::Shown(_) => 11,
        HostEvent::Alarm(_) => 12,
        HostEvent::AlarmOver { .. } => 13,
        HostEvent::Signal { .. } => 14,
        HostEvent::Volume { .. } => 15,
        HostEvent::AddressLost { .. } => 16,
    }
}

/// The address of the set of an event; of the shown set, 254 for none; or the terminal's own.
pub(crate) fn address_of_event(event: HostEvent) -> u8
    ensures { result ≡ numbers.address_of_event event }
{
    match event {
        HostEvent::SetCame { address }
        | HostEvent::SetSilent { address }
        | HostEvent::SetClosed { address }
        | HostEvent::PoolAccepted { address }
        | HostEvent::PoolUpdated { address }
        | HostEvent::PoolFaulty { address, .. }
        | HostEvent::PoolRefused { address, .. }
        | HostEvent::PoolDeleted { address }
        | HostEvent::Uploaded { address, .. }
        | HostEvent::TextAborted { address }
        | HostEvent::AlarmOver { address }
        | HostEvent::Signal { address, .. }
        | HostEvent::Volume { address, .. }
        | HostEvent::AddressLost { address } => address,
        HostEvent::Shown(display) => display.address,
        HostEvent::Alarm(alarm) => alarm.address,
    }
}

/// The two numbers of an event in one, the first lowest. Both are 0 where it has none.
pub(crate) fn numbers_of_event(event: HostEvent) -> u64
    ensures { result ≡ numbers.numbers_of_event event }
{
    match event {
        HostEvent::PoolFaulty { fault, .. } => fault_numbers(fault),
        HostEvent::PoolRefused { rule, .. } => both(
            pair(u16::from(rule.rule), in_16(rule.at)),
            pair(rule.object.raw(), rule.other.raw()),
        ),
        HostEvent::Uploaded { progress, .. } => {
            both(in_32(progress.came), in_32(progress.announced))
        }
        HostEvent::Shown(display) => both(
            u32::from(display.mask.raw()),
            u32::from(display.soft_keys.raw()),
        ),
        HostEvent::Alarm(alarm) => both(
            u32::from(alarm.mask.raw()),
            pair(u16::from(alarm.priority), u16::from(alarm.acoustic)),
        ),
        HostEvent::Signal { signal, .. } => both(
            pair(u16::from(signal.activations), signal.frequency),
            pair(signal.on, signal.off),
        ),
        HostEvent::Volume { percent, .. } => both(u32::from(percent), 0),
        HostEvent::SetCame { .. }
        | HostEvent::SetSilent { .. }
        | HostEvent::SetClosed { .. }
        | HostEvent::PoolAccepted { .. }
        | HostEvent::PoolUpdated { .. }
        | HostEvent::PoolDeleted { .. }
        | HostEvent::TextAborted { .. }
        | HostEvent::AlarmOver { .. }
        | HostEvent::AddressLost { .. } => 0,
    }
}

/// The number of a fault, and its offset.
fn fault_numbers(fault: PoolFault) -> u64
    ensures { result ≡ numbers.fault_numbers fault }
{
    match fault {
        PoolFault::Truncated { at } => both(1, in_32(at)),
        PoolFault::UnknownType { at } => both(2, in_32(at)),
        PoolFault::LeftOutType { at } => both(3, in_32(at)),
        PoolFault::Scale { at } => both(4, in_32(at)),
        PoolFault::Decimals { at } => both(5, in_32(at)),
        PoolFault::OutOfMemory { at } => both(6, in_32(at)),
        PoolFault::NullId { at } => both(7, in_32(at)),
    }
}

/// Two numbers of 32 bits in one, the first lowest.
fn both(first: u32, second: u32) -> u64
    ensures { result ≡ numbers.both first second }
{
    u64::from(second) * (1 << 32) + u64::from(first)
}

/// Two numbers of 16 bits in one, the first lowest.
fn pair(low: u16, high: u16) -> u32
    ensures { result ≡ numbers.pair low high }
{
    u32::from(high) * (1 << 16) + u32::from(low)
}

/// A number in 32 bits: the greatest one, if it is too large.
fn in_32(number: usize) -> u32
    ensures { result ≡ numbers.in_32 number }
{
    u32::try_from(number).unwrap_or(u32::MAX)
}

/// A number in 16 bits: the greatest one, if it is too large.
fn in_16(number: usize) -> u16
    ensures { result ≡ numbers.in_16 number }
{
    u16::try_from(number).unwrap_or(u16::MAX)
}

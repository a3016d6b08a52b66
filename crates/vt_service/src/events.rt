//! Events as values of JSON.

ghost use Rattle.std.specs.Prelude.{◌≡◌, IfOk};
ghost use Rattle.serde_json.specs.View.{view};
ghost use Rattle.vt_service.specs.Cells.{cell_data};
ghost use Rattle.vt_service.specs.Events as json_of;

use crate::cells::{Cell, id_cell, object_of};
use serde_json::Value;
use std::alloc::{AllocError, Global};
use vt_can::assigned::NULL_ADDRESS;
use vt_host_events::{Alarm, HostEvent};
use vt_machine::Signal;
use vt_pool::PoolFault;
use vt_server::{BrokenRule, Progress, ShownMasks};

/// An event: its name, the address that it is about, and its numbers.
pub(crate) fn event_value(alloc: Global, event: HostEvent) -> Result<Value, AllocError>
    ensures { IfOk result (λ v. view v ≡ json_of.event_data event) }
{
    match event {
        HostEvent::SetCame { address } => plain(alloc, "set-came", address),
        HostEvent::SetSilent { address } => plain(alloc, "set-silent", address),
        HostEvent::SetClosed { address } => plain(alloc, "set-closed", address),
        HostEvent::PoolAccepted { address } => plain(alloc, "pool-accepted", address),
        HostEvent::PoolUpdated { address } => plain(alloc, "pool-updated", address),
        HostEvent::PoolFaulty { address, fault } => faulty(alloc, address, fault),
        HostEvent::PoolRefused { address, rule } => refused(alloc, address, rule),
        HostEvent::PoolDeleted { address } => plain(alloc, "pool-deleted", address),
        HostEvent::Uploaded { address, progress } => uploaded(alloc, address, progress),
        HostEvent::TextAborted { address } => plain(alloc, "text-aborted", address),
        HostEvent::Shown(display) => shown(alloc, display),
        HostEvent::Alarm(alarm) => alarm_value(alloc, alarm),
        HostEvent::AlarmOver { address } => plain(alloc, "alarm-over", address),
        HostEvent::Signal { address, signal } => signal_value(alloc, address, signal),
        HostEvent::Volume { address, percent } => volume(alloc, address, percent),
        HostEvent::AddressLost { address } => plain(alloc, "address-lost", address),
    }
}

/// An event without numbers.
fn plain(alloc: Global, name: &str, address: u8) -> Result<Value, AllocError>
    ensures { IfOk result (λ v. view v ≡ json_of.plain name.now address) }
{
    object_of(
        alloc,
        &[
            ("address", Cell::Number(u64::from(address))),
            ("event", Cell::Text(name)),
        ],
    )
}

fn faulty(alloc: Global, address: u8, fault: PoolFault) -> Result<Value, AllocError>
    ensures { IfOk result (λ v. view v ≡ json_of.faulty address fault) }
{
    let text = format!(in alloc; "{fault}")?;
    object_of(
        alloc,
        &[
            ("address", Cell::Number(u64::from(address))),
            ("event", Cell::Text("pool-faulty")),
            ("fault", Cell::Text(&text)),
        ],
    )
}

fn refused(alloc: Global, address: u8, rule: BrokenRule) -> Result<Value, AllocError>
    ensures { IfOk result (λ v. view v ≡ json_of.refused address rule) }
{
    object_of(
        alloc,
        &[
            ("address", Cell::Number(u64::from(address))),
            ("event", Cell::Text("pool-refused")),
            ("object", id_cell(rule.object)),
            ("offset", Cell::Number(rule.at as u64)),
            ("other", id_cell(rule.other)),
            ("rule", Cell::Number(u64::from(rule.rule))),
        ],
    )
}

fn uploaded(alloc: Global, address: u8, progress: Progress) -> Result<Value, AllocError>
    ensures { IfOk result (λ v. view v ≡ json_of.uploaded address progress) }
{
    object_of(
        alloc,
        &[
            ("address", Cell::Number(u64::from(address))),
            ("announced", Cell::Number(progress.announced as u64)),
            ("event", Cell::Text("uploaded")),
            ("received", Cell::Number(progress.came as u64)),
        ],
    )
}

fn shown(alloc: Global, display: ShownMasks) -> Result<Value, AllocError>
    ensures { IfOk result (λ v. view v ≡ json_of.shown display) }
{
    object_of(
        alloc,
        &[
            ("address", address_cell(display.address)),
            ("event", Cell::Text("shown")),
            ("mask", id_cell(display.mask)),
            ("soft_key_mask", id_cell(display.soft_keys)),
        ],
    )
}

/// An address, or `null` for that of no node.
fn address_cell(address: u8) -> Cell<'static>
    ensures { cell_data result ≡ json_of.address_data address }
{
    if address == NULL_ADDRESS {
        Cell::Null
    } else {
        Cell::Number(u64::from(address))
    }
}

fn alarm_value(alloc: Global, alarm: Alarm) -> Result<Value, AllocError>
    ensures { IfOk result (λ v. view v ≡ json_of.alarm alarm) }
{
    object_of(
        alloc,
        &[
            ("address", Cell::Number(u64::from(alarm.address))),
            ("event", Cell::Text("alarm")),
            ("mask", Cell::Number(u64::from(alarm.mask.raw()))),
            ("priority", Cell::Number(u64::from(alarm.priority))),
            ("signal", Cell::Number(u64::from(alarm.acoustic))),
        ],
    )
}

fn signal_value(alloc: Global, address: u8, signal: Signal) -> Result<Value, AllocError>
    ensures { IfOk result (λ v. view v ≡ json_of.signal address signal) }
{
    object_of(
        alloc,
        &[
            ("address", Cell::Number(u64::from(address))),
            ("event", Cell::Text("signal")),
            ("frequency", Cell::Number(u64::from(signal.frequency))),
            ("off", Cell::Number(u64::from(signal.off))),
            ("on", Cell::Number(u64::from(signal.on))),
            ("times", Cell::Number(u64::from(signal.activations))),
        ],
    )
}

fn volume(alloc: Global, address: u8, percent: u8) -> Result<Value, AllocError>
    ensures { IfOk result (λ v. view v ≡ json_of.volume address percent) }
{
    object_of(
        alloc,
        &[
            ("address", Cell::Number(u64::from(address))),
            ("event", Cell::Text("volume")),
            ("percent", Cell::Number(u64::from(percent))),
        ],
    )
}

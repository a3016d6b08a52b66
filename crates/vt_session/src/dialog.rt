//! What a dialog for an input reads: its limits, its text, and the raw value of a typed number. A call that writes a text makes it the text
//! of the session, and returns the number of its bytes, or 2^64 - 1 if memory was refused.

ghost use Rattle.std.specs.Prelude.{◌≡◌, ◌++◌, OnErr, OnOk};
ghost use Rattle.std.specs.Option.{option_map};
ghost use Rattle.vt_kinds.specs.Records.{seen};
ghost use Rattle.vt_server.specs.States.{state_of};
ghost use Rattle.vt_session.specs.Dialogs.{IsRawOf, TellsRaw, WritesLimits, WritesValue, bytes_if, limit_numbers, limits_by, limits_bytes, object_by, text_by};
ghost use Rattle.vt_session.specs.Readings.{pool_by};

use crate::reading::{object_id, pool_at, write_numbers};
use crate::session::Session;
use std::alloc::AllocError;
use vt_dialogs::{InputLimits, Typed, limits_of, raw_of, write_text};
use vt_objects::Object;
use vt_server::Terminal;

/// Writes the limits of an input of the set at an address, 24 bytes. The first eight are: its kind; 1 or 0 for whether it is enabled; the
/// decimal places of its scale; its decimals; the number of its items; the most bytes of a text; and two bytes of 0. Then follow in four
/// bytes each, the lowest first: the raw value shown, the least and the greatest one accepted, and the offset. Without such an input the
/// text is empty.
pub fn limits(session: &mut Session, address: u32, id: u32) -> u64
    ensures { WritesLimits session.old address id session.new result }
{
    session.text.clear();
    match write_limits(&session.terminal, address, id, &mut session.text) {
        Ok(()) => session.text.len() as u64,
        Err(_) => {
            session.text.clear();
            u64::MAX
        }
    }
}

fn write_limits(
    terminal: &Terminal,
    address: u32,
    id: u32,
    text: &mut Vec<u8>,
) -> Result<(), AllocError>
    ensures { OnOk result (text.new.items ≡ text.old.items ++ bytes_if (limits_by (pool_by (state_of terminal.now) address) id)) }
{
    match limits_at(terminal, address, id) {
        Some(limits) => write_bytes(text, &limits),
        None => Ok(()),
    }
}

/// The limits of an input of the set at an address, if there is such an input.
pub fn limits_at(terminal: &Terminal, address: u32, id: u32) -> Option<InputLimits>
    ensures { result ≡ limits_by (pool_by (state_of terminal.now) address) id }
{
    let live = pool_at(terminal, address)?;
    limits_of(live.store(), object_id(id)?)
}

/// Appends limits in 24 bytes.
fn write_bytes(text: &mut Vec<u8>, limits: &InputLimits) -> Result<(), AllocError>
    ensures { OnOk result (text.new.items ≡ text.old.items ++ limits_bytes limits.now) }
{
    text.extend_from_slice(&[
        limits.kind,
        u8::from(limits.enabled),
        limits.places,
        limits.decimals,
        limits.items,
        limits.length,
        0,
        0,
    ])?;
    write_numbers(text, &numbers_of(limits))
}

/// The raw value shown, the least and the greatest one accepted, and the offset.
fn numbers_of(limits: &InputLimits) -> [u32; 4]
    ensures { result ≡ limit_numbers limits.now }
{
    [
        limits.value,
        limits.least,
        limits.greatest,
        limits.offset.cast_unsigned(),
    ]
}

/// Writes the text of an input or output field of the set at an address as the terminal shows it. Without such a field the text is empty.
pub fn value_text(session: &mut Session, address: u32, id: u32) -> u64
    ensures { WritesValue session.old address id session.new result }
{
    session.text.clear();
    match write_value(&session.terminal, address, id, &mut session.text) {
        Ok(()) => session.text.len() as u64,
        Err(_) => u64::MAX,
    }
}

/// Appends the text of a field as `value_text` has it.
pub fn write_value(
    terminal: &Terminal,
    address: u32,
    id: u32,
    text: &mut Vec<u8>,
) -> Result<(), AllocError>
    ensures ok { OnOk result (text.new.items ≡ text.old.items ++ text_by (pool_by (state_of terminal.now) address) id) }
    ensures err { OnErr result (text.new.items ≡ text.old.items) }
{
    let Some(live) = pool_at(terminal, address) else {
        return Ok(());
    };
    let Some(id) = object_id(id) else {
        return Ok(());
    };
    write_text(live.store(), id, text)
}

/// The exact raw value of a number that the operator typed for an Input Number of the set at an address. `digits` are its digits without
/// the point, and `decimals` is the number of digits after the point. It is negative if `sign` is not 0. Returns 2^64 - 1 if there is no
/// such value or no such input, or for more than 15 digits or decimals.
pub fn raw(
    session: &mut Session,
    address: u32,
    id: u32,
    sign: u32,
    digits: u64,
    decimals: u32,
) -> u64
    ensures { TellsRaw session.old address id sign digits decimals session.new result }
{
    let typed = Typed {
        is_negative: sign != 0,
        digits,
        decimals,
    };
    match raw_at(&session.terminal, address, id, typed) {
        Some(raw) => u64::from(raw),
        None => u64::MAX,
    }
}

/// The exact raw value of a typed number for an Input Number of the set at an address. `None` if there is no such value or no such input,
/// or for more than 15 digits or decimals.
pub fn raw_at(terminal: &Terminal, address: u32, id: u32, typed: Typed) -> Option<u32>
    ensures { IsRawOf (object_by (pool_by (state_of terminal.now) address) id) typed result }
{
    raw_in(object_at(terminal, address, id), typed)
}

fn raw_in(object: Option<&Object<Vec<u8>>>, typed: Typed) -> Option<u32>
    ensures { IsRawOf (option_map (λ o. seen o.now) object.entry) typed result }
{
    let Some(object) = object else {
        return None;
    };
    let Object::InputNumber(input) = object else {
        return None;
    };
    if typed.digits >= 1_000_000_000_000_000 || typed.decimals > 15 {
        return None;
    }
    raw_of(input, typed)
}

/// The object with a number as its ID, of the set at an address.
fn object_at(terminal: &Terminal, address: u32, id: u32) -> Option<&Object<Vec<u8>>>
    ensures { option_map (λ o. seen o.now) result ≡ object_by (pool_by (state_of terminal.now) address) id }
{
    let live = pool_at(terminal, address)?;
    live.get(object_id(id)?)
}

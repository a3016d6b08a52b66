//! The answers to questions about a terminal, as values of JSON. Bytes are in hexadecimal.

ghost use Rattle.std.specs.Prelude.{◌≡◌, Some, map, IfOk};
ghost use Rattle.std.specs.Option.{option_map};
ghost use Rattle.serde_json.specs.View.{view};
ghost use Rattle.vt_server.specs.States.{state_of};
ghost use Rattle.vt_server.specs.shown.Screens.{IsScreenOf};
ghost use Rattle.vt_session.specs.Readings.{elements_shown, is_at, touched_of};
ghost use Rattle.vt_service.specs.Asking as asking;
ghost use Rattle.vt_service.specs.Cells.{cell_data};
ghost use Rattle.vt_service.specs.Values as values;

use crate::cells::{Cell, id_cell, object_of};
use crate::request::Question;
use draw_picture::ListedElement;
use serde_json::Value;
use std::alloc::{AllocError, Global};
use vt_dialogs::{InputLimits, Typed};
use vt_machine::Live;
use vt_names::Set;
use vt_objects::{ObjectId, SortedStore};
use vt_server::Terminal;
use vt_session::{dialog, reading, words};

/// The value that answers a question.
pub(crate) fn value_of(
    alloc: Global,
    terminal: &Terminal,
    question: &Question,
) -> Result<Value, AllocError>
    ensures { IfOk result (λ v. asking.IsValue (state_of terminal.now) question.now (view v)) }
{
    match question {
        Question::Screen => screen(alloc, terminal),
        Question::Picture { address, mask } => {
            text_value(
                alloc,
                &reading::picture_at(alloc, terminal, u32::from(*address), u32::from(*mask))?,
            )
        }
        Question::Part { address, object } => {
            text_value(
                alloc,
                &reading::part_at(alloc, terminal, u32::from(*address), u32::from(*object))?,
            )
        }
        Question::Elements => Ok(Value::Array(elements(alloc, terminal)?)),
        Question::Object { address, object } => object_value(alloc, terminal, *address, *object),
        Question::Sets => Ok(Value::Array(sets(alloc, terminal)?)),
        Question::Limits { address, object } => {
            match dialog::limits_at(terminal, u32::from(*address), u32::from(*object)) {
                Some(limits) => limits_value(alloc, limits),
                None => Ok(Value::Null),
            }
        }
        Question::Raw {
            address,
            object,
            typed,
        } => Ok(raw_value(terminal, *address, *object, *typed)),
        Question::Touch { x, y } => touch(alloc, terminal, *x, *y),
        Question::Words { frame } => Ok(Value::String(words::sentence_of(alloc, terminal, frame)?)),
    }
}

/// The screen as text.
fn screen(alloc: Global, terminal: &Terminal) -> Result<Value, AllocError>
    ensures { IfOk result (λ v. asking.IsTextOf (IsScreenOf (state_of terminal.now)) (view v)) }
{
    let mut text = Vec::new(alloc);
    terminal.screen(&mut text)?;
    text_value(alloc, &text)
}

/// A text in ASCII.
fn text_value(alloc: Global, text: &[u8]) -> Result<Value, AllocError>
    ensures { IfOk result (λ v. view v ≡ values.text_data text.now) }
{
    Ok(Value::String(String::from_utf8_lossy(alloc, text)?))
}

fn elements(alloc: Global, terminal: &Terminal) -> Result<Vec<Value>, AllocError>
    ensures { IfOk result (λ list. map view list.items ≡ map asking.element_data (elements_shown (state_of terminal.now))) }
{
    let mut values = Vec::new(alloc);
    for element in reading::elements_of(alloc, terminal)?.as_slice() {
        values.push(element_value(alloc, element)?)?;
    }
    Ok(values)
}

/// The index of an element, or `null`.
fn index_cell(index: Option<u16>) -> Cell<'static>
    ensures { cell_data result ≡ values.number_or_null index }
{
    match index {
        Some(index) => Cell::Number(u64::from(index)),
        None => Cell::Null,
    }
}

fn element_value(alloc: Global, element: &ListedElement) -> Result<Value, AllocError>
    ensures { IfOk result (λ v. view v ≡ asking.element_data element.now) }
{
    object_of(
        alloc,
        &[
            ("around", index_cell(element.around)),
            ("bottom", Cell::Signed(i64::from(element.bounds.bottom))),
            ("depth", Cell::Number(u64::from(element.depth))),
            ("height", Cell::Number(u64::from(element.height))),
            ("id", Cell::Number(u64::from(element.id.raw()))),
            ("kind", Cell::Number(u64::from(element.kind))),
            ("left", Cell::Signed(i64::from(element.bounds.left))),
            ("right", Cell::Signed(i64::from(element.bounds.right))),
            ("top", Cell::Signed(i64::from(element.bounds.top))),
            ("width", Cell::Number(u64::from(element.width))),
            ("x", Cell::Signed(i64::from(element.at.x))),
            ("y", Cell::Signed(i64::from(element.at.y))),
        ],
    )
}

/// The record of an object as it is now, and the text that it shows. Both are empty if there is no such object.
fn object_value(
    alloc: Global,
    terminal: &Terminal,
    address: u8,
    object: u16,
) -> Result<Value, AllocError>
    ensures { IfOk result (λ v. view v ≡ asking.object_data (state_of terminal.now) address object) }
{
    let mut record = Vec::new(alloc);
    reading::write_record(terminal, u32::from(address), u32::from(object), &mut record)?;
    let mut text = Vec::new(alloc);
    dialog::write_value(terminal, u32::from(address), u32::from(object), &mut text)?;
    let record = hex::encode_upper(alloc, &record)?;
    let text = hex::encode_upper(alloc, &text)?;
    object_of(
        alloc,
        &[("record", Cell::Text(&record)), ("text", Cell::Text(&text))],
    )
}

fn sets(alloc: Global, terminal: &Terminal) -> Result<Vec<Value>, AllocError>
    ensures { IfOk result (λ list. map view list.items ≡ map (asking.set_data (state_of terminal.now)) (state_of terminal.now).sets) }
{
    let mut values = Vec::new(alloc);
    for index in 0..terminal.count_of_sets() {
        if let Some(set) = terminal.set_by_index(index) {
            values.push(set_value(alloc, terminal, set)?)?;
        }
    }
    Ok(values)
}

/// A working set: its address, its NAME, and what is active in it if it has a pool.
fn set_value(alloc: Global, terminal: &Terminal, set: &Set) -> Result<Value, AllocError>
    ensures { IfOk result (λ v. view v ≡ asking.set_data (state_of terminal.now) set.now) }
{
    match set.name() {
        Some(name) => {
            let digits = hex::encode_upper(alloc, &name.raw().to_be_bytes())?;
            set_with(alloc, terminal, set, Cell::Text(&digits))
        }
        None => set_with(alloc, terminal, set, Cell::Null),
    }
}

/// A working set with its NAME as it is to be written, and what is active in it if it has a pool.
fn set_with(
    alloc: Global,
    terminal: &Terminal,
    set: &Set,
    name: Cell<'_>,
) -> Result<Value, AllocError>
    ensures { IfOk result (λ v. view v ≡ asking.set_with (state_of terminal.now) set.now (cell_data name.entry)) }
{
    let address = set.address();
    let active = active_cells(terminal.set(address));
    object_of(
        alloc,
        &[
            ("address", Cell::Number(u64::from(address))),
            ("input", active.input),
            ("key", active.key),
            ("mask", active.mask),
            ("name", name),
            ("pool", Cell::Flag(terminal.set(address).is_some())),
            ("shown", Cell::Flag(is_shown(terminal, address))),
            ("soft_key_mask", active.soft_key_mask),
        ],
    )
}

fn is_shown(terminal: &Terminal, address: u8) -> bool
    ensures { result ≡ is_at (state_of terminal.now).shown address }
{
    terminal.shown() == Some(address)
}

/// What is active in a set. Each is `null` if there is none.
#[derive(Clone, Copy)]
struct Active {
    mask: Cell<'static>,
    soft_key_mask: Cell<'static>,
    input: Cell<'static>,
    key: Cell<'static>,
}

/// What is active in a set, if it has a pool.
fn active_cells(live: Option<&Live<SortedStore>>) -> Active
    ensures mask { cell_data result.mask ≡ asking.id_if (asking.mask_of (option_map (λ l. l.now) live.entry)) }
    ensures keys { cell_data result.soft_key_mask ≡ asking.id_if (asking.keys_of (option_map (λ l. l.now) live.entry)) }
    ensures input { cell_data result.input ≡ asking.id_if (asking.input_of (option_map (λ l. l.now) live.entry)) }
    ensures key { cell_data result.key ≡ asking.id_if (asking.key_of (option_map (λ l. l.now) live.entry)) }
{
    let Some(live) = live else {
        return Active {
            mask: Cell::Null,
            soft_key_mask: Cell::Null,
            input: Cell::Null,
            key: Cell::Null,
        };
    };
    Active {
        mask: id_cell(live.active_mask()),
        soft_key_mask: id_cell(live.soft_key_mask()),
        input: id_if(live.selected_input()),
        key: id_if(live.held_key()),
    }
}

/// The ID of something that may not be there, or `null`.
fn id_if(id: Option<ObjectId>) -> Cell<'static>
    ensures { cell_data result ≡ asking.id_if id }
{
    match id {
        Some(id) => id_cell(id),
        None => Cell::Null,
    }
}

fn limits_value(alloc: Global, limits: InputLimits) -> Result<Value, AllocError>
    ensures { IfOk result (λ v. view v ≡ asking.limits_data limits) }
{
    object_of(
        alloc,
        &[
            ("decimals", Cell::Number(u64::from(limits.decimals))),
            ("enabled", Cell::Flag(limits.enabled)),
            ("items", Cell::Number(u64::from(limits.items))),
            ("kind", Cell::Number(u64::from(limits.kind))),
            ("length", Cell::Number(u64::from(limits.length))),
            ("maximum", Cell::Number(u64::from(limits.greatest))),
            ("minimum", Cell::Number(u64::from(limits.least))),
            ("offset", Cell::Signed(i64::from(limits.offset))),
            ("places", Cell::Number(u64::from(limits.places))),
            ("value", Cell::Number(u64::from(limits.value))),
        ],
    )
}

fn raw_value(terminal: &Terminal, address: u8, object: u16, typed: Typed) -> Value
    ensures { asking.IsRawData (state_of terminal.now) address object typed (view result) }
{
    match dialog::raw_at(terminal, u32::from(address), u32::from(object), typed) {
        Some(raw) => Value::from(raw),
        None => Value::Null,
    }
}

fn touch(alloc: Global, terminal: &Terminal, x: u32, y: u32) -> Result<Value, AllocError>
    ensures { IfOk result (λ v. view v ≡ values.id_data (touched_of (elements_shown (state_of terminal.now)) x y)) }
{
    let elements = reading::elements_of(alloc, terminal)?;
    let id = reading::touched_in(&elements, x, y);
    Ok(if id.is_null() {
        Value::Null
    } else {
        Value::from(id.raw())
    })
}

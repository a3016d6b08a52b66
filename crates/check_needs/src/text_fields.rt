//! The fields with texts and numbers.

ghost use Rattle.std.specs.Prelude.{◌≡◌, ◌≤◌, ◌*◌, length, pos, ◌+ℤ◌, Some, None, IfSome, IfNone};
ghost use Rattle.std.specs.List.{list_any};
ghost use Rattle.std.specs.Option.{option_map};
ghost use Rattle.vt_kinds.specs.Records.{seen};
ghost use Rattle.vt_kinds.specs.Scales.{scale_places};
ghost use Rattle.vt_objects.specs.Decimals.{shown_text};
ghost use Rattle.vt_shown.specs.ShownElements.{number_shown};
ghost use Rattle.vt_stores.specs.Stores.{map_of};
ghost use Rattle.check_needs.specs.TextFields as fields;

use crate::fonts::cell_at;
use crate::sizes::Area;
use crate::warning::TextField;
use vt_objects::{Decimal, Decimals, Object, ObjectId, Scale, SortedStore, Store};
use vt_shown::number_shown;

/// The weight of bit 1 of a string's options: the text is wrapped.
const WRAPS: u8 = 2;

/// The format of a number.
#[derive(Clone, Copy)]
struct Format {
    offset: i32,
    scale: Scale,
    decimals: Decimals,
}

/// The field of an object with a text or a number. `None` if the object has no field, its font is missing or is of no known size, or
/// its variable is missing.
pub(crate) fn text_field(
    objects: &SortedStore,
    id: ObjectId,
    object: &Object<Vec<u8>>,
) -> Option<TextField>
    ensures { result ≡ fields.text_field objects.now id (seen object.now) }
{
    match object {
        Object::InputString(o) => {
            let cell = cell_at(objects, o.font)?;
            let text = text_shown(objects, o.variable, o.text.as_slice())?;
            let area = area_of(o.width, o.height);
            Some(text_in(id, area, o.options, cell, text))
        }
        Object::OutputString(o) => {
            let cell = cell_at(objects, o.font)?;
            let text = text_shown(objects, o.variable, o.text.as_slice())?;
            let area = area_of(o.width, o.height);
            Some(text_in(id, area, o.options, cell, text))
        }
        Object::InputNumber(o) => {
            let cell = cell_at(objects, o.font)?;
            let value = number_shown(objects, o.variable, o.value)?;
            let format = Format {
                offset: o.offset,
                scale: o.scale,
                decimals: o.decimals,
            };
            Some(number_in(id, area_of(o.width, o.height), cell, value, format))
        }
        Object::OutputNumber(o) => {
            let cell = cell_at(objects, o.font)?;
            let value = number_shown(objects, o.variable, o.value)?;
            let format = Format {
                offset: o.offset,
                scale: o.scale,
                decimals: o.decimals,
            };
            Some(number_in(id, area_of(o.width, o.height), cell, value, format))
        }
        _ => None,
    }
}

fn area_of(width: u16, height: u16) -> Area
    ensures { result ≡ fields.area_of width height }
{
    Area { width, height }
}

/// The text that an object shows: its variable's text, if it has a variable.
fn text_shown<'a>(objects: &'a SortedStore, variable: ObjectId, own: &'a [u8]) -> Option<&'a [u8]>
    requires { length own.now ≤ 65535 }
    ensures text { option_map (λ text. text.now) result ≡ fields.text_shown objects.now variable own.now }
    ensures most { IfSome result (λ text. length text.now ≤ 65535) }
{
    if variable.is_null() {
        return Some(own);
    }
    let Some(Object::StringVariable(o)) = objects.get(variable) else {
        return None;
    };
    Some(o.text.as_slice())
}

/// The field of a text.
fn text_in(id: ObjectId, area: Area, options: u8, cell: Area, text: &[u8]) -> TextField
    requires { length text.now ≤ 65535 }
    ensures { Some result ≡ fields.text_in id area options (Some cell) (Some text.now) }
{
    TextField {
        id,
        columns: columns(text),
        is_one_line: options / WRAPS % 2 == 0 && !has_line_break(text),
        cell,
        area,
    }
}

/// The field of a number.
fn number_in(id: ObjectId, area: Area, cell: Area, value: u32, format: Format) -> TextField
    ensures { Some result ≡ fields.number_in id area (Some cell) (Some (shown_text (pos value +ℤ format.offset) (scale_places format.scale) format.decimals)) }
{
    let Format {
        offset,
        scale,
        decimals,
    } = format;
    let number = Decimal {
        value,
        offset,
        scale,
        decimals,
    };
    TextField {
        id,
        columns: number.shown().len() as u32,
        is_one_line: true,
        cell,
        area,
    }
}

fn has_line_break(text: &[u8]) -> bool
    ensures { result ≡ list_any fields.is_line_break text.now }
{
    text.iter().any(|c| is_line_break(*c))
}

/// Whether a character is a carriage return or a line feed.
fn is_line_break(c: u8) -> bool
    ensures { result ≡ fields.is_line_break c }
{
    c == b'\r' || c == b'\n'
}

/// The number of characters up to the last one that is no space.
fn columns(text: &[u8]) -> u32
    requires { length text.now ≤ 65535 }
    ensures value { result ≡ fields.columns text.now }
    ensures most { result ≤ 65535 }
{
    let mut end = text.len();
    while end > 0 && text[end - 1] == b' ' {
        end -= 1;
    }
    end as u32
}

/// Whether a text in one line has more characters than its field has space for.
pub(crate) fn is_too_wide(field: &TextField) -> bool
    ensures { result ≡ fields.is_too_wide field.now }
{
    field.is_one_line
        && u64::from(field.columns) * u64::from(field.cell.width) > u64::from(field.area.width)
}

/// Whether a character is higher than its field.
pub(crate) fn is_too_high(field: &TextField) -> bool
    ensures { result ≡ fields.is_too_high field.now }
{
    field.cell.height > field.area.height
}

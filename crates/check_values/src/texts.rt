//! Texts that cannot be entered or seen.

ghost use Rattle.std.specs.Prelude.{◌≡◌, ◌++◌, OnOk};
ghost use Rattle.vt_kinds.specs.Records.{seen};
ghost use Rattle.vt_stores.specs.Stores.{object_at};
ghost use Rattle.check_values.specs.Texts as spec;

use crate::warning::{ShortVariable, ValueWarning};
use std::alloc::AllocError;
use vt_objects::{Object, ObjectId, SortedStore, Store};

/// Appends an Input String whose String Variable has less space than its own text.
pub(crate) fn put_short_variables(
    objects: &SortedStore,
    id: ObjectId,
    object: &Object<Vec<u8>>,
    found: &mut Vec<ValueWarning>,
) -> Result<(), AllocError>
    ensures { OnOk result (found.new.items ≡ found.old.items ++ spec.short_variables objects.now id (seen object.now)) }
{
    let Object::InputString(o) = object else {
        return Ok(());
    };
    let expected = o.text.as_slice().len() as u64;
    let Some(Object::StringVariable(variable)) = objects.get(o.variable) else {
        return Ok(());
    };
    let bytes = variable.text.as_slice().len() as u64;
    if bytes < expected {
        found.push(ValueWarning::ShortVariable(ShortVariable {
            id,
            variable: o.variable,
            bytes,
            expected,
        }))?;
    }
    Ok(())
}

/// Appends a field whose font has the colour of its background. An Output String of spaces, without a variable, is a coloured area.
pub(crate) fn put_same_colours(
    objects: &SortedStore,
    id: ObjectId,
    object: &Object<Vec<u8>>,
    found: &mut Vec<ValueWarning>,
) -> Result<(), AllocError>
    ensures { OnOk result (found.new.items ≡ found.old.items ++ spec.same_colours objects.now id (seen object.now)) }
{
    match object {
        Object::InputString(o) => put_if_same(objects, id, o.font, o.colour, o.options, found),
        Object::InputNumber(o) => put_if_same(objects, id, o.font, o.colour, o.options, found),
        Object::OutputString(o) => {
            if o.variable.is_null() && !has_characters(o.text.as_slice()) {
                return Ok(());
            }
            put_if_same(objects, id, o.font, o.colour, o.options, found)
        }
        Object::OutputNumber(o) => put_if_same(objects, id, o.font, o.colour, o.options, found),
        _ => Ok(()),
    }
}

/// Appends a field whose background is opaque and of the colour of its font.
fn put_if_same(
    objects: &SortedStore,
    id: ObjectId,
    font: ObjectId,
    colour: u8,
    options: u8,
    found: &mut Vec<ValueWarning>,
) -> Result<(), AllocError>
    ensures { OnOk result (found.new.items ≡ found.old.items ++ spec.if_same id font colour options (object_at objects.now font)) }
{
    if let Some(Object::Font(o)) = objects.get(font)
        && o.colour == colour
        && is_opaque(options, o.style)
    {
        found.push(ValueWarning::SameColour { id, font, colour })?;
    }
    Ok(())
}

/// Whether a background is opaque: without bit 0 of the options, or with an inverted font, bit 4 of its style.
fn is_opaque(options: u8, style: u8) -> bool
    ensures { result ≡ spec.is_opaque options style }
{
    options % 2 == 0 || style / 16 % 2 == 1
}

/// Whether a text has a character that is no space.
fn has_characters(text: &[u8]) -> bool
    ensures { result ≡ spec.has_characters text.now }
{
    text.iter().any(|c| *c != b' ')
}

//! Numbers of fields that have no meaning.

ghost use Rattle.std.specs.Prelude.{◌≡◌, ◌∷◌, [], ◌++◌, OnOk};
ghost use Rattle.vt_kinds.specs.Records.{seen};
ghost use Rattle.check_values.specs.Fields as spec;

use crate::warning::{LimitedField, LimitedValue, Meaning, ValueWarning};
use arrayvec::ArrayVec;
use std::alloc::AllocError;
use vt_objects::{Object, ObjectId};

/// The greatest angle of an ellipse, a meter and an arched bar, in steps of two degrees.
const GREATEST_ANGLE: u8 = 180;

/// The fields of one object.
type Limited = ArrayVec<LimitedValue, 3>;

/// Appends the fields of an object whose numbers have no meaning.
pub(crate) fn put_without_meaning(
    id: ObjectId,
    object: &Object<Vec<u8>>,
    found: &mut Vec<ValueWarning>,
) -> Result<(), AllocError>
    ensures { OnOk result (found.new.items ≡ found.old.items ++ spec.without_meaning id (seen object.now)) }
{
    let limited = limited_values(object);
    for value in limited.as_slice() {
        put_if_without(id, *value, found)?;
    }
    Ok(())
}

/// Appends a field if its number has no meaning.
fn put_if_without(
    id: ObjectId,
    limited: LimitedValue,
    found: &mut Vec<ValueWarning>,
) -> Result<(), AllocError>
    ensures { OnOk result (found.new.items ≡ found.old.items ++ spec.unless_meant id limited) }
{
    if has_meaning(limited) {
        return Ok(());
    }
    found.push(ValueWarning::NoMeaning { id, limited })?;
    Ok(())
}

/// Whether the number of a field has a meaning.
fn has_meaning(limited: LimitedValue) -> bool
    ensures { result ≡ spec.has_meaning limited }
{
    let LimitedValue { value, meaning, .. } = limited;
    match meaning {
        Meaning::UpTo(most) => value <= most,
        Meaning::FontTypes => value <= 2 || value == 4 || value == 5 || value == 7 || value >= 240,
    }
}

/// The fields of an object of which only some numbers have a meaning.
fn limited_values(object: &Object<Vec<u8>>) -> Limited
    ensures { result.items ≡ spec.limited_values (seen object.now) }
{
    match object {
        Object::WorkingSet(o) => one(up_to(LimitedField::Selectable, o.selectable, 1)),
        Object::AlarmMask(o) => two(
            up_to(LimitedField::Priority, o.priority, 2),
            up_to(LimitedField::AcousticSignal, o.acoustic, 3),
        ),
        Object::Container(o) => one(up_to(LimitedField::Hidden, o.hidden, 1)),
        Object::InputBoolean(o) => two(
            up_to(LimitedField::Value, o.value, 1),
            up_to(LimitedField::Enabled, o.enabled, 1),
        ),
        Object::InputString(o) => one(up_to(LimitedField::Enabled, o.enabled, 1)),
        Object::InputNumber(o) => one(up_to(LimitedField::Format, o.format, 1)),
        Object::OutputNumber(o) => one(up_to(LimitedField::Format, o.format, 1)),
        Object::Line(o) => one(up_to(LimitedField::Direction, o.direction, 1)),
        Object::Rectangle(o) => one(up_to(LimitedField::Suppression, o.suppression, 15)),
        Object::Ellipse(o) => three(
            up_to(LimitedField::Type, o.ellipse_type, 3),
            up_to(LimitedField::Start, o.start, GREATEST_ANGLE),
            up_to(LimitedField::End, o.end, GREATEST_ANGLE),
        ),
        Object::Polygon(o) => one(up_to(LimitedField::Type, o.polygon_type, 3)),
        Object::Meter(o) => two(
            up_to(LimitedField::Start, o.start, GREATEST_ANGLE),
            up_to(LimitedField::End, o.end, GREATEST_ANGLE),
        ),
        Object::ArchedBar(o) => two(
            up_to(LimitedField::Start, o.start, GREATEST_ANGLE),
            up_to(LimitedField::End, o.end, GREATEST_ANGLE),
        ),
        Object::Picture(o) => one(up_to(LimitedField::Format, o.format, 2)),
        Object::Font(o) => two(
            up_to(LimitedField::Size, o.size, greatest_size(o.style)),
            LimitedValue {
                field: LimitedField::FontType,
                value: o.font_type,
                meaning: Meaning::FontTypes,
            },
        ),
        Object::FillAttributes(o) => one(up_to(LimitedField::Type, o.fill_type, 3)),
        Object::InputAttributes(o) => {
            one(up_to(LimitedField::ValidationType, o.validation_type, 1))
        }
        Object::DataMask(_)
        | Object::SoftKeyMask(_)
        | Object::Key(_)
        | Object::Button(_)
        | Object::InputList(_)
        | Object::OutputString(_)
        | Object::LinearBar(_)
        | Object::NumberVariable(_)
        | Object::StringVariable(_)
        | Object::LineAttributes(_)
        | Object::ObjectPointer(_)
        | Object::Macro(_) => ArrayVec::new(),
    }
}

/// The greatest size of a font. With bit 7 of the style it is a height in pixels.
fn greatest_size(style: u8) -> u8
    ensures { result ≡ spec.greatest_size style }
{
    if style < 128 { 14 } else { 255 }
}

/// A field whose numbers up to `most` have a meaning.
fn up_to(field: LimitedField, value: u8, most: u8) -> LimitedValue
    ensures { result ≡ spec.up_to field value most }
{
    LimitedValue {
        field,
        value,
        meaning: Meaning::UpTo(most),
    }
}

fn one(first: LimitedValue) -> Limited
    ensures { result.items ≡ first ∷ [] }
{
    let mut limited = ArrayVec::new();
    limited.push(first);
    limited
}

fn two(first: LimitedValue, second: LimitedValue) -> Limited
    ensures { result.items ≡ first ∷ second ∷ [] }
{
    let mut limited = one(first);
    limited.push(second);
    limited
}

fn three(first: LimitedValue, second: LimitedValue, third: LimitedValue) -> Limited
    ensures { result.items ≡ first ∷ second ∷ third ∷ [] }
{
    let mut limited = two(first, second);
    limited.push(third);
    limited
}

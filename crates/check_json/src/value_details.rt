//! The details of warnings about values.

ghost use Rattle.std.specs.Prelude.{◌≡◌, IfOk};
ghost use Rattle.serde_json.specs.View.{view};
ghost use Rattle.check_json.specs.Json as json_of;

use crate::details::object_value;
use crate::members::{PlainValue, object_with};
use check_text::CheckedPool;
use check_values::{ShortVariable, ValueWarning};
use serde_json::{Value, json};
use std::alloc::{AllocError, Global};

/// What a warning about a value is about: its object, and its numbers.
pub(crate) fn value_warning_details(
    alloc: Global,
    source: &CheckedPool<'_>,
    warning: &ValueWarning,
) -> Result<Value, AllocError>
    ensures { IfOk result (λ v. view v ≡ json_of.value_details_of source.now warning.now) }
{
    let object = object_value(alloc, source, warning.object())?;
    match warning {
        ValueWarning::NoMeaning { limited, .. } => object_with(
            alloc,
            object,
            &[
                ("field", PlainValue::Text(limited.field.name())),
                ("value", PlainValue::Number(u64::from(limited.value))),
            ],
        ),
        ValueWarning::EmptyRange { min, max, .. } => object_with(
            alloc,
            object,
            &[
                ("max", PlainValue::Number(u64::from(*max))),
                ("min", PlainValue::Number(u64::from(*min))),
            ],
        ),
        ValueWarning::OutOfRange(it) => object_with(
            alloc,
            object,
            &[
                ("field", PlainValue::Text(it.field.name())),
                ("max", PlainValue::Number(u64::from(it.max))),
                ("min", PlainValue::Number(u64::from(it.min))),
                ("value", PlainValue::Number(u64::from(it.value))),
            ],
        ),
        ValueWarning::NoItem { value, items, .. } => object_with(
            alloc,
            object,
            &[
                ("items", PlainValue::Number(u64::from(*items))),
                ("value", PlainValue::Number(u64::from(*value))),
            ],
        ),
        ValueWarning::PictureBytes {
            bytes,
            expected,
            ..
        } => object_with(
            alloc,
            object,
            &[
                ("bytes", PlainValue::Number(*bytes)),
                ("expected", PlainValue::Number(*expected)),
            ],
        ),
        ValueWarning::HalfPair { bytes, .. } => {
            object_with(alloc, object, &[("bytes", PlainValue::Number(*bytes))])
        }
        ValueWarning::FewPoints { points, .. } => {
            object_with(
                alloc,
                object,
                &[("points", PlainValue::Number(u64::from(*points)))],
            )
        }
        ValueWarning::PointOutside(it) => object_with(
            alloc,
            object,
            &[
                ("index", PlainValue::Number(it.index as u64)),
                ("x", PlainValue::Number(u64::from(it.point.x))),
                ("y", PlainValue::Number(u64::from(it.point.y))),
            ],
        ),
        ValueWarning::ShortVariable(it) => short_details(alloc, source, object, *it),
        ValueWarning::NeverRaised { index, event, .. } => object_with(
            alloc,
            object,
            &[
                ("event", PlainValue::Number(u64::from(*event))),
                ("index", PlainValue::Number(*index as u64)),
            ],
        ),
        ValueWarning::InputThere { index, id, .. } => object_with(
            alloc,
            object,
            &[
                ("index", PlainValue::Number(*index as u64)),
                ("input_id", PlainValue::Number(u64::from(id.raw()))),
            ],
        ),
        ValueWarning::SameColour { font, colour, .. } => object_with(
            alloc,
            object,
            &[
                ("colour", PlainValue::Number(u64::from(*colour))),
                ("font_id", PlainValue::Number(u64::from(font.raw()))),
            ],
        ),
        ValueWarning::SameCode {
            index,
            key,
            code,
            ..
        } => object_with(
            alloc,
            object,
            &[
                ("code", PlainValue::Number(u64::from(*code))),
                ("index", PlainValue::Number(*index as u64)),
                ("key_id", PlainValue::Number(u64::from(key.raw()))),
            ],
        ),
        ValueWarning::NoActiveMask { .. }
        | ValueWarning::NoDesignator { .. }
        | ValueWarning::NoCode { .. } => { object_with(alloc, object, &[]) }
        ValueWarning::NoLanguage(it) => object_with(
            alloc,
            object,
            &[
                ("first", PlainValue::Number(u64::from(it.language.first))),
                ("index", PlainValue::Number(it.index as u64)),
                ("second", PlainValue::Number(u64::from(it.language.second))),
            ],
        ),
    }
}

/// The details of a variable with too little space, by its Input String as a value.
fn short_details(
    alloc: Global,
    source: &CheckedPool<'_>,
    object: Value,
    short: ShortVariable,
) -> Result<Value, AllocError>
    requires { view object ≡ json_of.object_data source.now short.id }
    ensures { IfOk result (λ v. view v ≡ json_of.short_data source.now short) }
{
    let variable = object_value(alloc, source, short.variable)?;
    let bytes = short.bytes;
    let expected = short.expected;
    json!(in alloc; {"bytes": bytes, "expected": expected, "object": object, "variable": variable})
}

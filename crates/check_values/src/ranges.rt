//! Ranges, and the numbers that objects show at first.

ghost use Rattle.std.specs.Prelude.{◌≡◌, ◌==◌, ◌/◌, ◌%◌, ◌++◌, OnOk};
ghost use Rattle.vt_kinds.specs.Records.{seen};
ghost use Rattle.vt_stores.specs.Stores.{map_of};
ghost use Rattle.check_values.specs.Ranges as spec;

use crate::warning::{OutOfRange, RangedField, ValueWarning};
use std::alloc::AllocError;
use vt_objects::{Object, ObjectId, SortedStore};
use vt_shown::number_shown;

/// The value of an Input List that names no item (docs/PROFILE.md, "Kind 10, Input List").
const NO_ITEM: u32 = 255;

/// The range of a number.
#[derive(Clone, Copy, PartialEq, Eq)]
pub struct Range {
    /// The least number.
    pub min: u32,
    /// The greatest number.
    pub max: u32,
    /// Whether a range of one number is empty: a meter or a bar then has nothing to show.
    pub needs_two: bool,
}

impl Range {
    /// Whether no number is in the range.
    fn is_empty(self) -> bool
        ensures { result ≡ spec.is_empty self }
    {
        self.max < self.min || self.needs_two && self.max == self.min
    }
}

/// The range of an object, or `None` for an object without one.
fn range_of(object: &Object<Vec<u8>>) -> Option<Range>
    ensures { result ≡ spec.range_of (seen object.now) }
{
    match object {
        Object::InputNumber(o) => Some(Range {
            min: o.min,
            max: o.max,
            needs_two: false,
        }),
        Object::Meter(o) => Some(drawn_range(o.min, o.max)),
        Object::LinearBar(o) => Some(drawn_range(o.min, o.max)),
        Object::ArchedBar(o) => Some(drawn_range(o.min, o.max)),
        _ => None,
    }
}

/// The range of a meter or a bar.
fn drawn_range(min: u16, max: u16) -> Range
    ensures { result ≡ spec.drawn_range min max }
{
    Range {
        min: u32::from(min),
        max: u32::from(max),
        needs_two: true,
    }
}

/// Appends an object whose range is empty.
pub(crate) fn put_empty_ranges(
    id: ObjectId,
    object: &Object<Vec<u8>>,
    found: &mut Vec<ValueWarning>,
) -> Result<(), AllocError>
    ensures { OnOk result (found.new.items ≡ found.old.items ++ spec.empty_ranges id (seen object.now)) }
{
    match range_of(object) {
        Some(range) if range.is_empty() => found.push(ValueWarning::EmptyRange {
            id,
            min: range.min,
            max: range.max,
        })?,
        _ => {}
    }
    Ok(())
}

/// Appends the numbers that an object shows at first and that are not in its range. An empty range is told by itself.
pub(crate) fn put_out_of_range(
    objects: &SortedStore,
    id: ObjectId,
    object: &Object<Vec<u8>>,
    found: &mut Vec<ValueWarning>,
) -> Result<(), AllocError>
    ensures { OnOk result (found.new.items ≡ found.old.items ++ spec.out_of_range objects.now id (seen object.now)) }
{
    match range_of(object) {
        Some(range) if !range.is_empty() => {
            let value = value_of(objects, object);
            put_if_outside(id, RangedField::Value, value, range, found)?;
            let target = target_of(objects, object);
            put_if_outside(id, RangedField::Target, target, range, found)
        }
        _ => Ok(()),
    }
}

/// Appends a number that is there and not in a range.
fn put_if_outside(
    id: ObjectId,
    field: RangedField,
    number: Option<u32>,
    range: Range,
    found: &mut Vec<ValueWarning>,
) -> Result<(), AllocError>
    ensures { OnOk result (found.new.items ≡ found.old.items ++ spec.unless_within id field number range) }
{
    let Range { min, max, .. } = range;
    match number {
        Some(value) if value < min || max < value => found.push(ValueWarning::OutOfRange(
            OutOfRange {
                id,
                field,
                value,
                min,
                max,
            },
        ))?,
        _ => {}
    }
    Ok(())
}

/// The value that an object with a range shows at first. `None` if its variable is missing, and for other objects.
fn value_of(objects: &SortedStore, object: &Object<Vec<u8>>) -> Option<u32>
    ensures { result ≡ spec.value_of objects.now (seen object.now) }
{
    match object {
        Object::InputNumber(o) => number_shown(objects, o.variable, o.value),
        Object::Meter(o) => number_shown(objects, o.variable, u32::from(o.value)),
        Object::LinearBar(o) => number_shown(objects, o.variable, u32::from(o.value)),
        Object::ArchedBar(o) => number_shown(objects, o.variable, u32::from(o.value)),
        _ => None,
    }
}

/// Whether a bar has a line at its target: bit 1 of its options.
fn has_target_line(options: u8) -> bool
    ensures { result ≡ (options / 2 % 2 == 1) }
{
    options / 2 % 2 == 1
}

/// The target that a bar shows at first. `None` if it has no line there or its variable is missing, and for other objects.
fn target_of(objects: &SortedStore, object: &Object<Vec<u8>>) -> Option<u32>
    ensures { result ≡ spec.target_of objects.now (seen object.now) }
{
    match object {
        Object::LinearBar(o) if has_target_line(o.options) => {
            number_shown(objects, o.target_variable, u32::from(o.target))
        }
        Object::ArchedBar(o) if has_target_line(o.options) => {
            number_shown(objects, o.target_variable, u32::from(o.target))
        }
        _ => None,
    }
}

/// Appends an Input List whose value names none of its items.
pub(crate) fn put_no_items(
    objects: &SortedStore,
    id: ObjectId,
    object: &Object<Vec<u8>>,
    found: &mut Vec<ValueWarning>,
) -> Result<(), AllocError>
    ensures { OnOk result (found.new.items ≡ found.old.items ++ spec.no_items objects.now id (seen object.now)) }
{
    let Object::InputList(o) = object else {
        return Ok(());
    };
    let items = o.items.len();
    match number_shown(objects, o.variable, u32::from(o.value)) {
        Some(value) if value != NO_ITEM && value >= u32::from(items) => {
            found.push(ValueWarning::NoItem { id, value, items })?;
        }
        _ => {}
    }
    Ok(())
}

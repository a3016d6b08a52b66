//! The details of items, by their kinds.

ghost use Rattle.std.specs.Prelude.{◌≡◌, IfOk, map};
ghost use Rattle.serde_json.specs.View.{view};
ghost use Rattle.check_json.specs.Json as json_of;

use crate::objects::{
    ChildValues, child_details, clash_details, command_details, event_details, field_details,
    keys_details, label_value, named_details, no_details, object_details, path_details,
    position_value, replaced_details, size_value, through_details, value_details,
};
use crate::value_details::value_warning_details;
use check_inspect::{Finding, ReferenceAt, Spot};
use check_needs::{Area, PlacedElement, TextField, Warning};
use check_text::{CheckedPool, Item, SpotText, circle_in};
use serde_json::Value;
use std::alloc::{AllocError, Global};
use vt_objects::ObjectId;

/// What an item is about, by its kind.
pub(crate) fn details_of(
    alloc: Global,
    source: &CheckedPool<'_>,
    item: Item<'_>,
) -> Result<Value, AllocError>
    ensures { IfOk result (λ v. view v ≡ json_of.details_of source.now item.entry) }
{
    match item {
        Item::Finding(finding) => finding_details(alloc, source, finding),
        Item::Clash(replaced) => {
            let in_force = object_value(alloc, source, replaced.id)?;
            let object = label_value(alloc, source.replaced_label(replaced))?;
            clash_details(alloc, object, replaced.by, in_force)
        }
        Item::Replaced(replaced) => {
            let object = label_value(alloc, source.replaced_label(replaced))?;
            replaced_details(alloc, object, replaced.by)
        }
        Item::Warning(warning) => warning_details(alloc, source, warning),
        Item::Value(warning) => value_warning_details(alloc, source, warning),
        Item::Note(_) => no_details(alloc),
    }
}

/// An object by its ID, with its kind and its name.
pub(crate) fn object_value(
    alloc: Global,
    source: &CheckedPool<'_>,
    id: ObjectId,
) -> Result<Value, AllocError>
    ensures { IfOk result (λ v. view v ≡ json_of.object_data source.now id) }
{
    label_value(alloc, source.label(id))
}

fn finding_details(
    alloc: Global,
    source: &CheckedPool<'_>,
    finding: &Finding,
) -> Result<Value, AllocError>
    ensures { IfOk result (λ v. view v ≡ json_of.finding_details source.now finding.now) }
{
    match finding {
        Finding::Record(_) | Finding::NoWorkingSet => no_details(alloc),
        Finding::TwoWorkingSets { id } | Finding::MacroBytes { id } => {
            let object = object_value(alloc, source, *id)?;
            object_details(alloc, object)
        }
        Finding::Missing(found)
        | Finding::WrongKind(found)
        | Finding::MacroMissing(found)
        | Finding::MacroKind(found) => reference_details(alloc, source, found),
        Finding::TooDeep { chain } => {
            let chain = chain.as_slice();
            let shown = circle_in(chain).unwrap_or(chain);
            let path = chain_values(alloc, source, shown)?;
            path_details(alloc, path)
        }
        Finding::MacroCommand { id, at, function } => {
            let object = object_value(alloc, source, *id)?;
            command_details(alloc, object, *at, *function)
        }
        Finding::MacroValue {
            id,
            at,
            object,
            attribute,
        } => {
            let changed = object_value(alloc, source, *object)?;
            let object = object_value(alloc, source, *id)?;
            value_details(alloc, object, *at, *attribute, changed)
        }
        Finding::MacroCircle { path } => {
            let path = circle_values(alloc, source, path.as_slice())?;
            path_details(alloc, path)
        }
        Finding::OverBudget { id, event } => {
            let object = object_value(alloc, source, *id)?;
            match event {
                None => object_details(alloc, object),
                Some(event) => event_details(alloc, object, *event),
            }
        }
    }
}

fn reference_details(
    alloc: Global,
    source: &CheckedPool<'_>,
    found: &ReferenceAt,
) -> Result<Value, AllocError>
    ensures { IfOk result (λ v. view v ≡ json_of.reference_details source.now found.now) }
{
    let names = object_value(alloc, source, found.reference.id)?;
    let object = object_value(alloc, source, found.reference.parent)?;
    let spot = SpotText { spot: found.spot };
    let place = format!(in alloc; "{spot}")?;
    match found.spot {
        Spot::Through { pointer, .. } => {
            let pointer = object_value(alloc, source, pointer)?;
            through_details(alloc, names, object, place.as_str(), pointer)
        }
        _ => named_details(alloc, names, object, place.as_str()),
    }
}

/// The objects of a chain.
fn chain_values(
    alloc: Global,
    source: &CheckedPool<'_>,
    chain: &[ObjectId],
) -> Result<Vec<Value>, AllocError>
    ensures { IfOk result (λ path. map view path.items ≡ map (json_of.object_data source.now) chain.now) }
{
    let mut path = Vec::new(alloc);
    for id in chain {
        path.push(object_value(alloc, source, *id)?)?;
    }
    Ok(path)
}

/// The macros of a circle.
fn circle_values(
    alloc: Global,
    source: &CheckedPool<'_>,
    circle: &[u8],
) -> Result<Vec<Value>, AllocError>
    ensures { IfOk result (λ path. map view path.items ≡ map (json_of.object_data source.now) circle.now) }
{
    let mut path = Vec::new(alloc);
    for id in circle {
        let id = ObjectId::from_raw(u16::from(*id));
        path.push(object_value(alloc, source, id)?)?;
    }
    Ok(path)
}

fn warning_details(
    alloc: Global,
    source: &CheckedPool<'_>,
    warning: &Warning,
) -> Result<Value, AllocError>
    ensures { IfOk result (λ v. view v ≡ json_of.warning_details source.now warning.now) }
{
    match warning {
        Warning::Unused { id } => {
            let object = object_value(alloc, source, *id)?;
            object_details(alloc, object)
        }
        Warning::TextTooWide(field) | Warning::TextTooHigh(field) => {
            text_details(alloc, source, field)
        }
        Warning::Outside { element, area } => outside_details(alloc, source, element, *area),
        Warning::ExtraKeys { id, keys, most } => {
            let object = object_value(alloc, source, *id)?;
            keys_details(alloc, object, *keys, *most)
        }
    }
}

fn text_details(
    alloc: Global,
    source: &CheckedPool<'_>,
    field: &TextField,
) -> Result<Value, AllocError>
    ensures { IfOk result (λ v. view v ≡ json_of.text_details source.now field.now) }
{
    let object = object_value(alloc, source, field.id)?;
    let cell = area_value(alloc, field.cell)?;
    let area = area_value(alloc, field.area)?;
    field_details(alloc, object, cell, area, field.columns)
}

fn outside_details(
    alloc: Global,
    source: &CheckedPool<'_>,
    element: &PlacedElement,
    area: Area,
) -> Result<Value, AllocError>
    ensures { IfOk result (λ v. view v ≡ json_of.outside_details source.now element.now area) }
{
    let values = ChildValues {
        object: object_value(alloc, source, element.parent)?,
        area: area_value(alloc, area)?,
        child: object_value(alloc, source, element.id)?,
        index: element.index,
    };
    let position = position_value(alloc, element.x, element.y)?;
    let size = size_value(alloc, element.width, element.height)?;
    child_details(alloc, values, position, size)
}

fn area_value(alloc: Global, area: Area) -> Result<Value, AllocError>
    ensures { IfOk result (λ v. view v ≡ json_of.size_data area.width area.height) }
{
    size_value(alloc, u32::from(area.width), u32::from(area.height))
}

//! The objects of JSON: one function for each form of members.

ghost use Rattle.std.specs.Prelude.{◌≡◌, IfOk, map};
ghost use Rattle.serde_json.specs.Data.{array};
ghost use Rattle.serde_json.specs.View.{view, items_of};
ghost use Rattle.check_json.specs.Json as json_of;
ghost use Rattle.check_text.specs.Labels.{label_seen};

use check_text::{ItemLine, Label, Summary, Totals};
use serde_json::{Value, json};
use std::alloc::{AllocError, Global};

pub(crate) fn message_value(
    alloc: Global,
    message: &ItemLine<'_>,
    details: Value,
) -> Result<Value, AllocError>
    ensures { IfOk result (λ v. view v ≡ json_of.line_data (json_of.head_of message.now) (view details)) }
{
    let offset = message.offset as u64;
    json!(in alloc; {
        "code": message.code.code,
        "details": details,
        "file": message.file,
        "message": message.sentence.as_str(),
        "name": message.code.name,
        "offset": offset,
        "severity": message.severity.word()
    })
}

pub(crate) fn summary_value(alloc: Global, summary: Summary<'_>) -> Result<Value, AllocError>
    ensures { IfOk result (λ v. view v ≡ json_of.summary_data summary.entry) }
{
    let errors = summary.errors as u64;
    let warnings = summary.warnings as u64;
    let objects = summary.objects as u64;
    let left_out = summary.left_out as u64;
    json!(in alloc; {
        "errors": errors,
        "file": summary.file,
        "left_out": left_out,
        "objects": objects,
        "warnings": warnings
    })
}

pub(crate) fn totals_value(alloc: Global, totals: Totals) -> Result<Value, AllocError>
    ensures { IfOk result (λ v. view v ≡ json_of.totals_data totals) }
{
    let files = totals.files as u64;
    let errors = totals.errors as u64;
    let warnings = totals.warnings as u64;
    let objects = totals.objects as u64;
    json!(in alloc; {
        "errors": errors,
        "files": files,
        "objects": objects,
        "warnings": warnings
    })
}

/// An object by its ID, with its kind and its name if they are known, or `null` in place of either.
pub fn label_value(alloc: Global, label: Label<'_>) -> Result<Value, AllocError>
    ensures { IfOk result (λ v. view v ≡ json_of.label_data (label_seen label.entry)) }
{
    let id = u64::from(label.id.raw());
    let kind = match label.kind {
        None => Value::Null,
        Some(kind) => Value::String(format!(in alloc; "{kind}")?),
    };
    let name = match label.name {
        None => Value::Null,
        Some(name) => Value::String(String::from_str(alloc, name)?),
    };
    json!(in alloc; {"id": id, "kind": kind, "name": name})
}

pub(crate) fn no_details(alloc: Global) -> Result<Value, AllocError>
    ensures { IfOk result (λ v. view v ≡ json_of.no_details) }
{
    json!(in alloc; {})
}

pub(crate) fn object_details(alloc: Global, object: Value) -> Result<Value, AllocError>
    ensures { IfOk result (λ v. view v ≡ json_of.object_details (view object)) }
{
    json!(in alloc; {"object": object})
}

pub(crate) fn named_details(
    alloc: Global,
    names: Value,
    object: Value,
    place: &str,
) -> Result<Value, AllocError>
    ensures { IfOk result (λ v. view v ≡ json_of.named_details (view names) (view object) place.now) }
{
    json!(in alloc; {"names": names, "object": object, "place": place})
}

pub(crate) fn through_details(
    alloc: Global,
    names: Value,
    object: Value,
    place: &str,
    pointer: Value,
) -> Result<Value, AllocError>
    ensures { IfOk result (λ v. view v ≡ json_of.through_details (view names) (view object) place.now (view pointer)) }
{
    json!(in alloc; {"names": names, "object": object, "place": place, "through": pointer})
}

pub(crate) fn path_details(alloc: Global, ids: Vec<Value>) -> Result<Value, AllocError>
    ensures { IfOk result (λ v. view v ≡ json_of.array_details (map view ids.items)) }
{
    let ids = Value::Array(ids);
    json!(in alloc; {"path": ids})
}

pub(crate) fn command_details(
    alloc: Global,
    object: Value,
    at: usize,
    function: u8,
) -> Result<Value, AllocError>
    ensures { IfOk result (λ v. view v ≡ json_of.command_details (view object) at function) }
{
    let at = at as u64;
    let function = u64::from(function);
    json!(in alloc; {"at": at, "function": function, "object": object})
}

pub(crate) fn value_details(
    alloc: Global,
    object: Value,
    at: usize,
    attribute: u8,
    changed: Value,
) -> Result<Value, AllocError>
    ensures { IfOk result (λ v. view v ≡ json_of.value_details (view object) at attribute (view changed)) }
{
    let at = at as u64;
    let attribute = u64::from(attribute);
    json!(in alloc; {"at": at, "attribute": attribute, "names": changed, "object": object})
}

pub(crate) fn event_details(alloc: Global, object: Value, event: u8) -> Result<Value, AllocError>
    ensures { IfOk result (λ v. view v ≡ json_of.event_details (view object) event) }
{
    let event = u64::from(event);
    json!(in alloc; {"event": event, "object": object})
}

pub(crate) fn replaced_details(alloc: Global, object: Value, by: usize) -> Result<Value, AllocError>
    ensures { IfOk result (λ v. view v ≡ json_of.replaced_details (view object) by) }
{
    let by = by as u64;
    json!(in alloc; {"by": by, "object": object})
}

pub(crate) fn clash_details(
    alloc: Global,
    object: Value,
    by: usize,
    in_force: Value,
) -> Result<Value, AllocError>
    ensures { IfOk result (λ v. view v ≡ json_of.clash_details (view object) by (view in_force)) }
{
    let by = by as u64;
    json!(in alloc; {"by": by, "in_force": in_force, "object": object})
}

pub(crate) fn size_value(alloc: Global, width: u32, height: u32) -> Result<Value, AllocError>
    ensures { IfOk result (λ v. view v ≡ json_of.size_data width height) }
{
    let width = u64::from(width);
    let height = u64::from(height);
    json!(in alloc; {"height": height, "width": width})
}

pub(crate) fn position_value(alloc: Global, x: i16, y: i16) -> Result<Value, AllocError>
    ensures { IfOk result (λ v. view v ≡ json_of.position_data x y) }
{
    let x = i64::from(x);
    let y = i64::from(y);
    json!(in alloc; {"x": x, "y": y})
}

pub(crate) fn field_details(
    alloc: Global,
    object: Value,
    cell: Value,
    area: Value,
    columns: u32,
) -> Result<Value, AllocError>
    ensures { IfOk result (λ v. view v ≡ json_of.field_details (view object) (view cell) (view area) columns) }
{
    let columns = u64::from(columns);
    json!(in alloc; {"cell": cell, "columns": columns, "field": area, "object": object})
}

/// The object that has the child, its area, and the child with its index.
#[derive(Drop)]
pub(crate) struct ChildValues {
    pub(crate) object: Value,
    pub(crate) area: Value,
    pub(crate) child: Value,
    pub(crate) index: u8,
}

pub(crate) fn child_details(
    alloc: Global,
    values: ChildValues,
    position: Value,
    size: Value,
) -> Result<Value, AllocError>
    ensures { IfOk result (λ v. view v ≡ json_of.child_details (view values.object) (view values.area) (view values.child) values.index (view position) (view size)) }
{
    let ChildValues {
        object,
        area,
        child,
        index,
    } = values;
    let index = u64::from(index);
    json!(in alloc; {
        "area": area,
        "child": child,
        "index": index,
        "object": object,
        "position": position,
        "size": size
    })
}

pub(crate) fn keys_details(
    alloc: Global,
    object: Value,
    keys: u8,
    most: u8,
) -> Result<Value, AllocError>
    ensures { IfOk result (λ v. view v ≡ json_of.keys_details (view object) keys most) }
{
    let keys = u64::from(keys);
    let most = u64::from(most);
    json!(in alloc; {"keys": keys, "most": most, "object": object})
}

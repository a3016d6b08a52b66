//! Objects of JSON whose members are plain: numbers, texts and the like.

ghost use Rattle.std.specs.Prelude.{◌≡◌, IfOk};
ghost use Rattle.serde_json.specs.Data.{no_members, object};
ghost use Rattle.serde_json.specs.View.{view};
ghost use Rattle.vt_service.specs.Cells.{cell_data, with_cells};
ghost use Rattle.vt_service.specs.Values.{id_data, number_or_null};

use serde_json::{Map, Value};
use std::alloc::{AllocError, Global};
use vt_objects::ObjectId;

/// The value of a plain member.
#[derive(Clone, Copy)]
pub enum Cell<'a> {
    Null,
    Flag(bool),
    Number(u64),
    Signed(i64),
    Text(&'a str),
}

impl Cell<'_> {
    fn value(&self, alloc: Global) -> Result<Value, AllocError>
        ensures { IfOk result (λ v. view v ≡ cell_data self.now) }
    {
        match self {
            Cell::Null => Ok(Value::Null),
            Cell::Flag(flag) => Ok(Value::Bool(*flag)),
            Cell::Number(number) => Ok(Value::from(*number)),
            Cell::Signed(number) => Ok(Value::from(*number)),
            Cell::Text(text) => Ok(Value::String(String::from_str(alloc, text)?)),
        }
    }
}

/// An object of members, by their names.
pub(crate) fn object_of(alloc: Global, members: &[(&str, Cell<'_>)]) -> Result<Value, AllocError>
    ensures { IfOk result (λ v. view v ≡ object (with_cells no_members members.now)) }
{
    let mut map = Map::new(alloc);
    for member in members {
        let value = member.1.value(alloc)?;
        serde_json::put(&mut map, alloc, member.0, value)?;
    }
    Ok(Value::Object(map))
}

/// A number, or `null`.
pub(crate) fn number_cell(number: Option<u64>) -> Cell<'static>
    ensures { cell_data result ≡ number_or_null number }
{
    match number {
        Some(number) => Cell::Number(number),
        None => Cell::Null,
    }
}

/// The ID of an object, or `null` for NULL.
pub(crate) fn id_cell(id: ObjectId) -> Cell<'static>
    ensures { cell_data result ≡ id_data id }
{
    if id.is_null() {
        Cell::Null
    } else {
        Cell::Number(u64::from(id.raw()))
    }
}

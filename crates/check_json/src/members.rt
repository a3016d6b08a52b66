//! Objects of JSON with plain members.

ghost use Rattle.std.specs.Prelude.{◌≡◌, IfOk, codes};
ghost use Rattle.serde_json.specs.Data as trees;
ghost use Rattle.serde_json.specs.View.{view};
ghost use Rattle.check_json.specs.Members.{plain_data, with_plain};

use serde_json::{Map, Value};
use std::alloc::{AllocError, Global};

/// The value of a plain member.
#[derive(Clone, Copy)]
pub enum PlainValue<'a> {
    Number(u64),
    Text(&'a str),
}

impl PlainValue<'_> {
    fn value(&self, alloc: Global) -> Result<Value, AllocError>
        ensures { IfOk result (λ v. view v ≡ plain_data self.now) }
    {
        match self {
            PlainValue::Number(number) => Ok(Value::from(*number)),
            PlainValue::Text(text) => Ok(Value::String(String::from_str(alloc, text)?)),
        }
    }
}

/// A pool's object as the member `object`, and plain members by their names.
pub(crate) fn object_with(
    alloc: Global,
    object: Value,
    members: &[(&str, PlainValue<'_>)],
) -> Result<Value, AllocError>
    ensures { IfOk result (λ v. view v ≡ trees.object (with_plain (trees.member (codes "object") (view object) trees.no_members) members.now)) }
{
    let mut map = Map::new(alloc);
    serde_json::put(&mut map, alloc, "object", object)?;
    for member in members {
        let value = member.1.value(alloc)?;
        serde_json::put(&mut map, alloc, member.0, value)?;
    }
    Ok(Value::Object(map))
}

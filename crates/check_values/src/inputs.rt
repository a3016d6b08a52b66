//! Inputs where they are not allowed, and keys without a code of their own.

ghost use Rattle.std.specs.Prelude.{◌≡◌, ◌++◌, not, ◌&&◌, ◌==◌, take, OnOk};
ghost use Rattle.vt_kinds.specs.Records.{seen};
ghost use Rattle.check_values.specs.Inputs as spec;
ghost use Rattle.check_values.specs.Listed.{each_from};

use crate::warning::ValueWarning;
use std::alloc::AllocError;
use vt_objects::{Child, Object, ObjectId, SortedStore};
use vt_shown::resolve;

/// Appends the inputs and buttons among the children of an Alarm Mask or a Key.
pub(crate) fn put_inputs_there(
    objects: &SortedStore,
    id: ObjectId,
    object: &Object<Vec<u8>>,
    found: &mut Vec<ValueWarning>,
) -> Result<(), AllocError>
    ensures { OnOk result (found.new.items ≡ found.old.items ++ spec.inputs_there objects.now id (seen object.now)) }
{
    match object {
        Object::AlarmMask(o) => put_inputs(objects, id, o.children.as_slice(), found),
        Object::Key(o) => put_inputs(objects, id, o.children.as_slice(), found),
        _ => Ok(()),
    }
}

fn put_inputs(
    objects: &SortedStore,
    parent: ObjectId,
    children: &[Child],
    found: &mut Vec<ValueWarning>,
) -> Result<(), AllocError>
    ensures { OnOk result (found.new.items ≡ found.old.items ++ each_from (spec.if_input objects.now parent) 0 children.now) }
{
    for (index, child) in children.iter().enumerate() {
        put_if_input(objects, parent, index, *child, found)?;
    }
    Ok(())
}

/// Appends a child that is an input or a button, itself or by a pointer.
fn put_if_input(
    objects: &SortedStore,
    parent: ObjectId,
    index: usize,
    child: Child,
    found: &mut Vec<ValueWarning>,
) -> Result<(), AllocError>
    ensures { OnOk result (found.new.items ≡ found.old.items ++ spec.if_input objects.now parent index child) }
{
    match resolve(objects, child.id) {
        Some((id, object)) if is_input(object) => {
            found.push(ValueWarning::InputThere { parent, index, id })?;
        }
        _ => {}
    }
    Ok(())
}

/// Whether the operator enters something into an object, or presses it.
fn is_input(object: &Object<Vec<u8>>) -> bool
    ensures { result ≡ spec.is_input (seen object.now) }
{
    match object {
        Object::Button(_)
        | Object::InputBoolean(_)
        | Object::InputString(_)
        | Object::InputNumber(_)
        | Object::InputList(_) => true,
        _ => false,
    }
}

/// Appends a Key or a Button with the code 0.
pub(crate) fn put_no_codes(
    id: ObjectId,
    object: &Object<Vec<u8>>,
    found: &mut Vec<ValueWarning>,
) -> Result<(), AllocError>
    ensures { OnOk result (found.new.items ≡ found.old.items ++ spec.no_codes id (seen object.now)) }
{
    let code = match object {
        Object::Key(o) => o.key_code,
        Object::Button(o) => o.key_code,
        _ => return Ok(()),
    };
    if code == 0 {
        found.push(ValueWarning::NoCode { id })?;
    }
    Ok(())
}

/// Appends the keys of a Soft Key Mask that have the code of an earlier one. The code 0 is told by itself.
pub(crate) fn put_same_codes(
    objects: &SortedStore,
    id: ObjectId,
    object: &Object<Vec<u8>>,
    found: &mut Vec<ValueWarning>,
) -> Result<(), AllocError>
    ensures { OnOk result (found.new.items ≡ found.old.items ++ spec.same_codes objects.now id (seen object.now)) }
{
    let Object::SoftKeyMask(o) = object else {
        return Ok(());
    };
    put_taken(objects, id, o.keys.as_slice(), found)
}

fn put_taken(
    objects: &SortedStore,
    mask: ObjectId,
    keys: &[ObjectId],
    found: &mut Vec<ValueWarning>,
) -> Result<(), AllocError>
    ensures { OnOk result (found.new.items ≡ found.old.items ++ each_from (spec.if_taken objects.now mask keys.now) 0 keys.now) }
{
    for (index, key) in keys.iter().enumerate() {
        put_if_taken(objects, mask, keys, index, *key, found)?;
    }
    Ok(())
}

/// Appends a key if it has the code of an earlier one.
fn put_if_taken(
    objects: &SortedStore,
    mask: ObjectId,
    keys: &[ObjectId],
    index: usize,
    key: ObjectId,
    found: &mut Vec<ValueWarning>,
) -> Result<(), AllocError>
    ensures { OnOk result (found.new.items ≡ found.old.items ++ spec.if_taken objects.now mask keys.now index key) }
{
    let Some(code) = code_at(objects, key) else {
        return Ok(());
    };
    if code != 0 && is_taken(objects, keys, index, key, code) {
        found.push(ValueWarning::SameCode {
            id: mask,
            index,
            key,
            code,
        })?;
    }
    Ok(())
}

/// Whether another one of so many first keys has a code.
fn is_taken(objects: &SortedStore, keys: &[ObjectId], count: usize, key: ObjectId, code: u8) -> bool
    ensures { result ≡ spec.is_taken objects.now key code (take count keys.now) }
{
    keys.iter()
        .take(count)
        .any(|other| is_other_with(objects, key, code, *other))
}

/// Whether a key is another one than a first, and has a code.
fn is_other_with(objects: &SortedStore, key: ObjectId, code: u8, other: ObjectId) -> bool
    ensures { result ≡ (not (other == key) && spec.has_code code (spec.code_at objects.now other)) }
{
    other.raw() != key.raw() && code_at(objects, other) == Some(code)
}

/// The code of a Key, itself or by a pointer. `None` for another object.
fn code_at(objects: &SortedStore, id: ObjectId) -> Option<u8>
    ensures { result ≡ spec.code_at objects.now id }
{
    match resolve(objects, id) {
        Some((_, Object::Key(key))) => Some(key.key_code),
        Some(_) | None => None,
    }
}

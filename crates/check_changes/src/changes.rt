//! The fields in which two objects of one kind differ.

ghost use Rattle.std.specs.Prelude.{◌≡◌, IfOk, map};
ghost use Rattle.vt_kinds.specs.Records.{seen};
ghost use Rattle.vt_writing.specs.Values.{value_of};
ghost use Rattle.check_changes.specs.ChangedFields.{rows_unlike};
ghost use Rattle.check_changes.specs.Changes.{changed};
ghost use Rattle.check_changes.specs.Names.{name_bytes, not_counts};

use crate::names::names_of;
use std::alloc::{AllocError, Global};
use vt_kinds::Object;
use vt_writing::{Value, values_of};

/// The fields in which two objects of one kind differ, in the order of their record. The three lists are of one length. They are apart
/// because the borrow checker does not cover a `Value` that is moved into a struct of a list.
#[derive(Drop)]
pub struct ChangedFields<'a> {
    /// The name of each field.
    pub names: Vec<&'static str>,
    /// Its value in the old object.
    pub old: Vec<Value<'a>>,
    /// Its value in the new object, of the same variant.
    pub new: Vec<Value<'a>>,
}

/// The fields in which two objects of one kind differ; empty for objects of different kinds.
pub fn changed_fields<'a>(
    alloc: Global,
    old: &'a Object<Vec<u8>>,
    new: &'a Object<Vec<u8>>,
) -> Result<ChangedFields<'a>, AllocError>
    ensures names { IfOk result (λ found. name_bytes found.names.items ≡ map (λ c. c.name) (changed (seen old.now) (seen new.now))) }
    ensures old { IfOk result (λ found. map value_of found.old.items ≡ map (λ c. c.old) (changed (seen old.now) (seen new.now))) }
    ensures new { IfOk result (λ found. map value_of found.new.items ≡ map (λ c. c.new) (changed (seen old.now) (seen new.now))) }
{
    let kind = old.kind();
    if kind.number() != new.kind().number() {
        return Ok(ChangedFields {
            names: Vec::new(alloc),
            old: Vec::new(alloc),
            new: Vec::new(alloc),
        });
    }
    let names = names_of(kind);
    let old_values = named_values(alloc, &values_of(old))?;
    let new_values = named_values(alloc, &values_of(new))?;
    let changed_names = differing_names(alloc, names, &old_values, &new_values)?;
    let changed_old = differing_old(alloc, names, &old_values, &new_values)?;
    let changed_new = differing_new(alloc, names, &old_values, &new_values)?;
    Ok(ChangedFields {
        names: changed_names,
        old: changed_old,
        new: changed_new,
    })
}

/// The values that have a name: all but the counts.
fn named_values<'a>(alloc: Global, values: &[Value<'a>]) -> Result<Vec<Value<'a>>, AllocError>
    ensures { IfOk result (λ named. named.items ≡ not_counts values.now) }
{
    values
        .iter()
        .filter(|value| !value.is_count())
        .copied()
        .collect(alloc)
}

/// The names whose values are not equal, among as many names as values.
fn differing_names<V: PartialEq>(
    alloc: Global,
    names: &[&'static str],
    old: &[V],
    new: &[V],
) -> Result<Vec<&'static str>, AllocError>
    ensures { IfOk result (λ found. found.items ≡ map (λ row. row.0.0) (rows_unlike V.eq names.now old.now new.now)) }
{
    names
        .iter()
        .zip(old)
        .zip(new)
        .filter(|((_, old), new)| old != new)
        .map(|((name, _), _)| *name)
        .collect(alloc)
}

/// The old values that are not equal to the new ones, among as many names as values.
fn differing_old<V: PartialEq + Copy>(
    alloc: Global,
    names: &[&'static str],
    old: &[V],
    new: &[V],
) -> Result<Vec<V>, AllocError>
    ensures { IfOk result (λ found. found.items ≡ map (λ row. row.0.1) (rows_unlike V.eq names.now old.now new.now)) }
{
    names
        .iter()
        .zip(old)
        .zip(new)
        .filter(|((_, value), new)| value != new)
        .map(|((_, value), _)| *value)
        .collect(alloc)
}

/// The new values that are not equal to the old ones, among as many names as values.
fn differing_new<V: PartialEq + Copy>(
    alloc: Global,
    names: &[&'static str],
    old: &[V],
    new: &[V],
) -> Result<Vec<V>, AllocError>
    ensures { IfOk result (λ found. found.items ≡ map (λ row. row.1) (rows_unlike V.eq names.now old.now new.now)) }
{
    names
        .iter()
        .zip(old)
        .zip(new)
        .filter(|((_, old), value)| old != value)
        .map(|(_, value)| *value)
        .collect(alloc)
}

//! The rules of the warnings.

ghost use Rattle.std.specs.Prelude.{◌≡◌, ◌≤◌, ◌++◌, ◌||◌, ℕ, length, map, filter, IfOk, OnOk, Some};
ghost use Rattle.std.specs.Option.{option_to_list};
ghost use Rattle.vt_kinds.specs.Records.{seen, kind_of};
ghost use Rattle.check_needs.specs.declared.warning.Warning.TheVariants as warnings;
ghost use Rattle.check_needs.specs.Elements.{is_outside};
ghost use Rattle.check_needs.specs.Naming.{has, is_among, is_selected, names};
ghost use Rattle.check_needs.specs.TextFields.{is_too_wide, is_too_high};
ghost use Rattle.check_needs.specs.Warnings as spec;

use crate::elements::{element, frame_of, is_outside};
use crate::id_set::IdSet;
use crate::naming::named;
use crate::sizes::{Area, Sizes};
use crate::text_fields::{is_too_high, is_too_wide, text_field};
use crate::warning::{PlacedElement, TextField, Warning};
use std::alloc::{AllocError, Global};
use vt_objects::{Child, Kind, Object, ObjectId, SortedStore};

/// A rule for the objects of a pool.
#[derive(Clone, Copy)]
pub enum Rule {
    Unused,
    TextTooWide,
    TextTooHigh,
    Outside,
    ExtraKeys,
}

/// All warnings about the objects of a pool, in the order of the rules, and for each rule by rising ID (docs/PROFILE.md, "Warnings").
pub fn warnings(
    alloc: Global,
    objects: &SortedStore,
    sizes: Sizes,
) -> Result<Vec<Warning>, AllocError>
    ensures { IfOk result (λ found. found.items ≡ spec.warnings_of sizes objects.now) }
{
    let named = named(alloc, objects)?;
    let mut found = Vec::new(alloc);
    put_found(objects, &named, sizes, Rule::Unused, &mut found)?;
    put_found(objects, &named, sizes, Rule::TextTooWide, &mut found)?;
    put_found(objects, &named, sizes, Rule::TextTooHigh, &mut found)?;
    put_found(objects, &named, sizes, Rule::Outside, &mut found)?;
    put_found(objects, &named, sizes, Rule::ExtraKeys, &mut found)?;
    Ok(found)
}

/// Appends what a rule finds at the objects.
fn put_found(
    objects: &SortedStore,
    named: &IdSet,
    sizes: Sizes,
    rule: Rule,
    found: &mut Vec<Warning>,
) -> Result<(), AllocError>
    requires { (id : ℕ) → has named.now id ≡ is_among id (names objects.now) }
    ensures { OnOk result (found.new.items ≡ found.old.items ++ spec.found rule sizes objects.now) }
{
    for (id, object) in objects.entries() {
        put_found_at(objects, named, sizes, rule, *id, object, found)?;
    }
    Ok(())
}

/// Appends what a rule finds at an object.
fn put_found_at(
    objects: &SortedStore,
    named: &IdSet,
    sizes: Sizes,
    rule: Rule,
    id: ObjectId,
    object: &Object<Vec<u8>>,
    found: &mut Vec<Warning>,
) -> Result<(), AllocError>
    requires { (other : ℕ) → has named.now other ≡ is_among other (names objects.now) }
    ensures { OnOk result (found.new.items ≡ found.old.items ++ spec.found_at rule sizes objects.now (id, seen object.now)) }
{
    match rule {
        Rule::Unused => put_unused(named, id, object, found),
        Rule::TextTooWide => put_too_wide(found, text_field(objects, id, object)),
        Rule::TextTooHigh => put_too_high(found, text_field(objects, id, object)),
        Rule::Outside => match frame_of(object, sizes) {
            None => Ok(()),
            Some((area, children)) => put_outside(objects, id, area, children, found),
        },
        Rule::ExtraKeys => put_extra_keys(sizes, id, object, found),
    }
}

/// Appends an object that is not named, unless messages select its kind.
fn put_unused(
    named: &IdSet,
    id: ObjectId,
    object: &Object<Vec<u8>>,
    found: &mut Vec<Warning>,
) -> Result<(), AllocError>
    ensures { OnOk result (found.new.items ≡ found.old.items ++ spec.unless (is_selected (kind_of (seen object.now)) || has named.now id) (warnings.Unused id)) }
{
    if is_selected(object.kind()) || named.contains(id) {
        return Ok(());
    }
    found.push(Warning::Unused { id })?;
    Ok(())
}

/// Whether messages of an implement select objects of a kind.
fn is_selected(kind: Kind) -> bool
    ensures { result ≡ is_selected kind }
{
    matches!(kind, Kind::WorkingSet | Kind::DataMask | Kind::AlarmMask)
}

/// Appends a field that is too narrow for its text.
fn put_too_wide(found: &mut Vec<Warning>, field: Option<TextField>) -> Result<(), AllocError>
    ensures { OnOk result (found.new.items ≡ found.old.items ++ map warnings.TextTooWide (filter is_too_wide (option_to_list field))) }
{
    match field {
        Some(field) if is_too_wide(&field) => found.push(Warning::TextTooWide(field))?,
        _ => {}
    }
    Ok(())
}

/// Appends a field that is too low for its characters.
fn put_too_high(found: &mut Vec<Warning>, field: Option<TextField>) -> Result<(), AllocError>
    ensures { OnOk result (found.new.items ≡ found.old.items ++ map warnings.TextTooHigh (filter is_too_high (option_to_list field))) }
{
    match field {
        Some(field) if is_too_high(&field) => found.push(Warning::TextTooHigh(field))?,
        _ => {}
    }
    Ok(())
}

/// Appends the children that reach out of an area.
fn put_outside(
    objects: &SortedStore,
    parent: ObjectId,
    area: Area,
    children: &[Child],
    found: &mut Vec<Warning>,
) -> Result<(), AllocError>
    requires { length children.now ≤ 255 }
    ensures { OnOk result (found.new.items ≡ found.old.items ++ spec.outside_of objects.now parent (Some (area, children.now))) }
{
    let mut index = 0;
    for child in children {
        put_if_outside(found, element(objects, parent, index, *child), area)?;
        index += 1;
    }
    Ok(())
}

/// Appends an element that reaches out of an area.
fn put_if_outside(
    found: &mut Vec<Warning>,
    element: Option<PlacedElement>,
    area: Area,
) -> Result<(), AllocError>
    ensures { OnOk result (found.new.items ≡ found.old.items ++ map (λ e. warnings.Outside e area) (filter (is_outside area) (option_to_list element))) }
{
    match element {
        Some(element) if is_outside(&element, area) => {
            found.push(Warning::Outside { element, area })?;
        }
        _ => {}
    }
    Ok(())
}

/// Appends a soft key mask with more keys than the terminal has.
fn put_extra_keys(
    sizes: Sizes,
    id: ObjectId,
    object: &Object<Vec<u8>>,
    found: &mut Vec<Warning>,
) -> Result<(), AllocError>
    ensures { OnOk result (found.new.items ≡ found.old.items ++ spec.extra_keys sizes id (seen object.now)) }
{
    if let Object::SoftKeyMask(o) = object
        && o.keys.len() > sizes.keys
    {
        found.push(Warning::ExtraKeys {
            id,
            keys: o.keys.len(),
            most: sizes.keys,
        })?;
    }
    Ok(())
}

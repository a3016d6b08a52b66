//! The rules of the warnings.

ghost use Rattle.std.specs.Prelude.{◌≡◌, ◌++◌, IfOk, OnOk};
ghost use Rattle.vt_kinds.specs.Records.{seen};
ghost use Rattle.check_values.specs.ValueWarnings as spec;

use crate::entries::put_never_raised;
use crate::fields::put_without_meaning;
use crate::inputs::{put_inputs_there, put_no_codes, put_same_codes};
use crate::pictures::put_pictures;
use crate::polygons::{put_few_points, put_points_outside};
use crate::ranges::{put_empty_ranges, put_no_items, put_out_of_range};
use crate::texts::{put_same_colours, put_short_variables};
use crate::warning::ValueWarning;
use crate::working_sets::{put_no_active_mask, put_no_designator, put_no_languages};
use std::alloc::{AllocError, Global};
use vt_objects::{Object, ObjectId, SortedStore};

/// A rule for the values of objects.
#[derive(Clone, Copy)]
pub enum ValueRule {
    NoMeaning,
    EmptyRange,
    OutOfRange,
    NoItem,
    Pictures,
    FewPoints,
    PointsOutside,
    ShortVariable,
    NeverRaised,
    NoActiveMask,
    NoDesignator,
    NoLanguage,
    InputThere,
    NoCode,
    SameColour,
    SameCode,
}

/// All warnings about the values of the objects of a pool, in the order of the rules, and for each rule by rising ID (docs/PROFILE.md,
/// "Warnings").
pub fn value_warnings(alloc: Global, objects: &SortedStore) -> Result<Vec<ValueWarning>, AllocError>
    ensures { IfOk result (λ found. found.items ≡ spec.value_warnings objects.now) }
{
    let mut found = Vec::new(alloc);
    put_rules(objects, &RULES, &mut found)?;
    Ok(found)
}

/// The rules in the order of their codes.
const RULES: [ValueRule; 16] = [
    ValueRule::NoMeaning,
    ValueRule::EmptyRange,
    ValueRule::OutOfRange,
    ValueRule::NoItem,
    ValueRule::Pictures,
    ValueRule::FewPoints,
    ValueRule::PointsOutside,
    ValueRule::ShortVariable,
    ValueRule::NeverRaised,
    ValueRule::NoActiveMask,
    ValueRule::NoDesignator,
    ValueRule::NoLanguage,
    ValueRule::InputThere,
    ValueRule::NoCode,
    ValueRule::SameColour,
    ValueRule::SameCode,
];

/// Appends what some rules find.
fn put_rules(
    objects: &SortedStore,
    rules: &[ValueRule],
    found: &mut Vec<ValueWarning>,
) -> Result<(), AllocError>
    ensures { OnOk result (found.new.items ≡ found.old.items ++ spec.found_by rules.now objects.now) }
{
    for rule in rules {
        put_found(objects, *rule, found)?;
    }
    Ok(())
}

/// Appends what a rule finds at the objects.
fn put_found(
    objects: &SortedStore,
    rule: ValueRule,
    found: &mut Vec<ValueWarning>,
) -> Result<(), AllocError>
    ensures { OnOk result (found.new.items ≡ found.old.items ++ spec.found rule objects.now) }
{
    for (id, object) in objects.entries() {
        put_found_at(objects, rule, *id, object, found)?;
    }
    Ok(())
}

/// Appends what a rule finds at an object.
fn put_found_at(
    objects: &SortedStore,
    rule: ValueRule,
    id: ObjectId,
    object: &Object<Vec<u8>>,
    found: &mut Vec<ValueWarning>,
) -> Result<(), AllocError>
    ensures { OnOk result (found.new.items ≡ found.old.items ++ spec.found_at rule objects.now (id, seen object.now)) }
{
    match rule {
        ValueRule::NoMeaning => put_without_meaning(id, object, found),
        ValueRule::EmptyRange => put_empty_ranges(id, object, found),
        ValueRule::OutOfRange => put_out_of_range(objects, id, object, found),
        ValueRule::NoItem => put_no_items(objects, id, object, found),
        ValueRule::Pictures => put_pictures(id, object, found),
        ValueRule::FewPoints => put_few_points(id, object, found),
        ValueRule::PointsOutside => put_points_outside(id, object, found),
        ValueRule::ShortVariable => put_short_variables(objects, id, object, found),
        ValueRule::NeverRaised => put_never_raised(id, object, found),
        ValueRule::NoActiveMask => put_no_active_mask(id, object, found),
        ValueRule::NoDesignator => put_no_designator(id, object, found),
        ValueRule::NoLanguage => put_no_languages(id, object, found),
        ValueRule::InputThere => put_inputs_there(objects, id, object, found),
        ValueRule::NoCode => put_no_codes(id, object, found),
        ValueRule::SameColour => put_same_colours(objects, id, object, found),
        ValueRule::SameCode => put_same_codes(objects, id, object, found),
    }
}

//! What a Working Set lacks.

ghost use Rattle.std.specs.Prelude.{◌≡◌, ◌++◌, OnOk};
ghost use Rattle.vt_kinds.specs.Records.{seen};
ghost use Rattle.check_values.specs.Listed.{each_from};
ghost use Rattle.check_values.specs.WorkingSets as spec;

use crate::warning::{NoLanguage, ValueWarning};
use std::alloc::AllocError;
use vt_objects::{Language, Object, ObjectId};

/// Appends a Working Set without an active mask.
pub(crate) fn put_no_active_mask(
    id: ObjectId,
    object: &Object<Vec<u8>>,
    found: &mut Vec<ValueWarning>,
) -> Result<(), AllocError>
    ensures { OnOk result (found.new.items ≡ found.old.items ++ spec.no_active_mask id (seen object.now)) }
{
    let Object::WorkingSet(o) = object else {
        return Ok(());
    };
    if o.active_mask.is_null() {
        found.push(ValueWarning::NoActiveMask { id })?;
    }
    Ok(())
}

/// Appends a Working Set without a child.
pub(crate) fn put_no_designator(
    id: ObjectId,
    object: &Object<Vec<u8>>,
    found: &mut Vec<ValueWarning>,
) -> Result<(), AllocError>
    ensures { OnOk result (found.new.items ≡ found.old.items ++ spec.no_designator id (seen object.now)) }
{
    let Object::WorkingSet(o) = object else {
        return Ok(());
    };
    if o.children.len() == 0 {
        found.push(ValueWarning::NoDesignator { id })?;
    }
    Ok(())
}

/// Appends the language codes of a Working Set that are no two small letters.
pub(crate) fn put_no_languages(
    id: ObjectId,
    object: &Object<Vec<u8>>,
    found: &mut Vec<ValueWarning>,
) -> Result<(), AllocError>
    ensures { OnOk result (found.new.items ≡ found.old.items ++ spec.no_languages id (seen object.now)) }
{
    let Object::WorkingSet(o) = object else {
        return Ok(());
    };
    put_codes(id, o.languages.as_slice(), found)
}

fn put_codes(
    id: ObjectId,
    languages: &[Language],
    found: &mut Vec<ValueWarning>,
) -> Result<(), AllocError>
    ensures { OnOk result (found.new.items ≡ found.old.items ++ each_from (spec.unless_language id) 0 languages.now) }
{
    for (index, language) in languages.iter().enumerate() {
        put_if_none(id, index, *language, found)?;
    }
    Ok(())
}

/// Appends a language code that is not two small letters.
fn put_if_none(
    id: ObjectId,
    index: usize,
    language: Language,
    found: &mut Vec<ValueWarning>,
) -> Result<(), AllocError>
    ensures { OnOk result (found.new.items ≡ found.old.items ++ spec.unless_language id index language) }
{
    if !is_small_letter(language.first) || !is_small_letter(language.second) {
        found.push(ValueWarning::NoLanguage(NoLanguage {
            id,
            index,
            language,
        }))?;
    }
    Ok(())
}

fn is_small_letter(byte: u8) -> bool
    ensures { result ≡ spec.is_small_letter byte }
{
    matches!(byte, b'a'..=b'z')
}

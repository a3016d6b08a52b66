//! The errors and warnings of a pool.

ghost use Rattle.std.specs.Prelude.{◌≡◌};
ghost use Rattle.check_text.specs.Clashes.{is_clash};

use crate::checked_pool::kind_at;
use crate::item::Item;
use check_inspect::{Finding, Inspection, Note, ReplacedRecord};
use check_needs::Warning;
use check_values::ValueWarning;
use std::alloc::{AllocError, Global};
use vt_objects::{Kind, ObjectId};
use vt_pool::PoolFault;

/// The findings, then the records that others of another kind replace, then the other replaced records, then the warnings about objects
/// and those about their values. If bytes could not be read or records are passed over, no object is listed as
/// unused. A number whose scale or decimals are wrong is
/// not listed with a text that is too wide.
pub fn items_of<'a>(
    alloc: Global,
    inspection: &'a Inspection,
    warnings: &'a [Warning],
    values: &'a [ValueWarning],
) -> Result<Vec<Item<'a>>, AllocError> {
    let mut items = Vec::new(alloc);
    for finding in inspection.findings.iter() {
        items.push(Item::Finding(finding))?;
    }
    for replaced in inspection.replaced.iter() {
        if is_clash(inspection, replaced) {
            items.push(Item::Clash(replaced))?;
        }
    }
    for replaced in inspection.replaced.iter() {
        if !is_clash(inspection, replaced) {
            items.push(Item::Replaced(replaced))?;
        }
    }
    let are_all_known = !inspection.notes.iter().any(leaves_references);
    let mended = mended_bytes(alloc, inspection)?;
    for warning in warnings {
        let is_judged = match warning {
            Warning::Unused { .. } => are_all_known,
            Warning::TextTooWide(field) => !is_mended(inspection, mended.as_slice(), field.id),
            Warning::TextTooHigh(_) | Warning::Outside { .. } | Warning::ExtraKeys { .. } => true,
        };
        if is_judged {
            items.push(Item::Warning(warning))?;
        }
    }
    for value in values {
        items.push(Item::Value(value))?;
    }
    Ok(items)
}

/// Whether the object in force is of another kind than the record that it replaces.
fn is_clash(inspection: &Inspection, replaced: &ReplacedRecord) -> bool
    ensures { result ≡ is_clash inspection.now replaced.now }
{
    match kind_at(&inspection.objects, replaced.id) {
        Some(kind) => kind.number() != replaced.kind.number(),
        None => false,
    }
}

/// The indices of the bytes with a wrong scale or wrong decimals, in their order.
fn mended_bytes(alloc: Global, inspection: &Inspection) -> Result<Vec<usize>, AllocError> {
    let mut bytes = Vec::new(alloc);
    for finding in inspection.findings.iter() {
        if let Finding::Record(PoolFault::Scale { at } | PoolFault::Decimals { at }) = finding {
            bytes.push(*at)?;
        }
    }
    Ok(bytes)
}

/// The bytes of the record of an Input Number, without its macros (docs/PROFILE.md, "Kind 9, Input Number").
const INPUT_NUMBER_BYTES: usize = 38;

/// The bytes of the record of an Output Number, without its macros (docs/PROFILE.md, "Kind 12, Output Number").
const OUTPUT_NUMBER_BYTES: usize = 29;

/// Whether another scale or other decimals were read for an object than it has, so that its text is not known.
fn is_mended(inspection: &Inspection, mended: &[usize], id: ObjectId) -> bool {
    let Some(record) = inspection.record(id) else {
        return false;
    };
    let size = match record.kind {
        Kind::InputNumber => INPUT_NUMBER_BYTES,
        Kind::OutputNumber => OUTPUT_NUMBER_BYTES,
        Kind::WorkingSet
        | Kind::DataMask
        | Kind::AlarmMask
        | Kind::Container
        | Kind::SoftKeyMask
        | Kind::Key
        | Kind::Button
        | Kind::InputBoolean
        | Kind::InputString
        | Kind::InputList
        | Kind::OutputString
        | Kind::Line
        | Kind::Rectangle
        | Kind::Ellipse
        | Kind::Polygon
        | Kind::Meter
        | Kind::LinearBar
        | Kind::ArchedBar
        | Kind::Picture
        | Kind::NumberVariable
        | Kind::StringVariable
        | Kind::Font
        | Kind::LineAttributes
        | Kind::FillAttributes
        | Kind::InputAttributes
        | Kind::ObjectPointer
        | Kind::Macro => 0,
    };
    let next = mended.partition_point(|at| *at < record.at);
    match mended.get(next) {
        Some(at) => *at < record.at.saturating_add(size),
        None => false,
    }
}

/// Whether a note is on bytes or records that may refer to objects that nothing else refers to.
fn leaves_references(note: &Note) -> bool {
    matches!(note, Note::Unread { .. } | Note::PassedOver)
}

//! An inspected pool with its path and its names.

ghost use Rattle.std.specs.Prelude.{◌≡◌, ◌≤◌, length, IfOk, IsSome};
ghost use Rattle.std.specs.Option.{option_map};
ghost use Rattle.vt_kinds.specs.Records.{kind_of};
ghost use Rattle.vt_stores.specs.Stores.{object_at};
ghost use Rattle.check_text.specs.Labels.{label_seen, label_at, replaced_label};
ghost use Rattle.check_text.specs.Messages.{IsFirstByte, IsItemOffset, IsMessage, IsRecordAt, note_offset, object_of};
ghost use Rattle.check_inspect.specs.Places.{place_of};

use crate::codes::code_of;
use crate::item::Item;
use crate::label::Label;
use crate::message::{ItemLine, severity_of};
use crate::names::Names;
use crate::sentences::Sentence;
use check_inspect::{Finding, Inspection, Note, ReplacedRecord};
use check_needs::Warning;
use std::alloc::{AllocError, Global};
use vt_objects::{Kind, ObjectId, SortedStore, Store};

/// An inspected pool with its path and its names.
#[derive(Clone, Copy, Drop)]
pub struct CheckedPool<'a> {
    /// The path of the pool's file.
    pub path: &'a str,
    /// The pool.
    pub inspection: &'a Inspection,
    /// The bytes of the pool.
    pub bytes: &'a [u8],
    /// The names of objects.
    pub names: &'a Names,
}

impl<'a> CheckedPool<'a> {
    /// The object with this ID, with its kind and its name.
    pub fn label(&self, id: ObjectId) -> Label<'a>
        ensures { label_seen result ≡ label_at self.now id }
    {
        Label {
            id,
            kind: kind_at(&self.inspection.objects, id),
            name: self.names.get(id),
        }
    }

    /// The object of a replaced record, with its kind in that record and its name.
    pub fn replaced_label(&self, replaced: &ReplacedRecord) -> Label<'a>
        ensures { label_seen result ≡ replaced_label self.now replaced.now }
    {
        Label {
            id: replaced.id,
            kind: Some(replaced.kind),
            name: self.names.get(replaced.id),
        }
    }

    /// The object whose record begins at an index of the pool's bytes, with its kind in that record and its name. `None` if none begins
    /// there.
    pub(crate) fn label_of_record(&self, at: usize) -> Option<Label<'a>> {
        let Some([low, high, ..]) = self.bytes.get(at..) else {
            return None;
        };
        let id = ObjectId::from_raw(u16::from_le_bytes([*low, *high]));
        if let Some(record) = self.inspection.record(id)
            && record.at == at
        {
            return Some(self.label(id));
        }
        let replaced = self.inspection.replaced.as_slice();
        let next = replaced.partition_point(|replaced| replaced.at < at);
        let replaced = replaced.get(next)?;
        (replaced.at == at).then_some(self.replaced_label(replaced))
    }

    /// The index at which the last record before another begins. `None` if none is before it.
    pub(crate) fn record_before(&self, at: usize) -> Option<usize> {
        let Inspection {
            records,
            replaced,
            passed,
            ..
        } = self.inspection;
        let in_force = records.iter().map(|record| record.at);
        let replaced = replaced.iter().map(|record| record.at);
        let passed = passed.iter().map(|record| record.at);
        in_force
            .chain(replaced)
            .chain(passed)
            .filter(|begin| *begin < at)
            .max()
    }

    /// Whether all bytes of the pool could be read.
    pub fn is_read(&self) -> bool {
        !self
            .inspection
            .notes
            .iter()
            .any(|note| matches!(note, Note::Unread { .. }))
    }

    /// Whether the record at an index is passed over, since this terminal leaves out its type.
    pub fn is_passed(&self, at: usize) -> bool {
        let passed = self.inspection.passed.as_slice();
        let next = passed.partition_point(|record| record.at < at);
        passed.get(next).is_some_and(|record| record.at == at)
    }

    /// The message of an item of this pool.
    pub fn message(&self, alloc: Global, item: Item<'_>) -> Result<ItemLine<'a>, AllocError>
        ensures { IfOk result (IsMessage self.now item.entry) }
    {
        let sentence = Sentence {
            source: *self,
            item,
        };
        Ok(ItemLine {
            file: self.path,
            offset: self.offset(item),
            severity: severity_of(item),
            code: code_of(item),
            sentence: format!(in alloc; "{sentence}")?,
        })
    }

    /// The index of the byte that an item is about; 0 for the whole pool.
    fn offset(&self, item: Item<'_>) -> usize
        ensures { IsItemOffset self.now.inspection.now item.entry result }
    {
        match item {
            Item::Finding(finding) => self.finding_at(finding),
            Item::Clash(replaced) | Item::Replaced(replaced) => replaced.at,
            Item::Warning(warning) => self.record_at(warning_object(warning)),
            Item::Value(warning) => self.record_at(warning.object()),
            Item::Note(note) => note_offset(note),
        }
    }

    /// The index of the first byte of a finding; 0 for the whole pool.
    fn finding_at(&self, finding: &Finding) -> usize
        ensures { IsFirstByte self.now.inspection.now (place_of finding.now) result }
    {
        match self.inspection.offset(finding) {
            Some(at) => at,
            None => 0,
        }
    }

    /// The index of the first byte of an object's record; 0 for a missing object.
    fn record_at(&self, id: ObjectId) -> usize
        ensures { length self.now.inspection.now.objects ≤ length self.now.inspection.now.records.items → IsSome (object_at self.now.inspection.now.objects id) → IsRecordAt self.now.inspection.now id result }
    {
        match self.inspection.record(id) {
            Some(record) => record.at,
            None => 0,
        }
    }
}

/// The kind of an object, or `None` if it is missing.
pub(crate) fn kind_at(objects: &SortedStore, id: ObjectId) -> Option<Kind>
    ensures { result ≡ option_map kind_of (object_at objects.now id) }
{
    match objects.get(id) {
        None => None,
        Some(object) => Some(object.kind()),
    }
}

/// The object that a warning is about.
pub fn warning_object(warning: &Warning) -> ObjectId
    ensures { result ≡ object_of warning.now }
{
    match warning {
        Warning::Unused { id } | Warning::ExtraKeys { id, .. } => *id,
        Warning::TextTooWide(field) | Warning::TextTooHigh(field) => field.id,
        Warning::Outside { element, .. } => element.parent,
    }
}

/// The index of the first byte of a note; 0 for the whole pool.
fn note_offset(note: Note) -> usize
    ensures { result ≡ note_offset note }
{
    match note {
        Note::Unread { at } => at,
        Note::UnknownTriggers | Note::UnknownCosts | Note::PassedOver => 0,
    }
}

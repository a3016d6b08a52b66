//! Reading the entries of a record's lists.

ghost use Rattle.std.specs.Prelude.{◌≡◌, List, length, map, IfOk};
ghost use Rattle.vt_kinds.specs.Layout.{Size, Numeral};
ghost use Rattle.vt_kinds.specs.Tables.{child_sizes, child_numbers, macro_sizes, macro_numbers, language_sizes, language_numbers, id_sizes, id_numbers, point_sizes, point_numbers};
ghost use Rattle.vt_records.specs.TableReads.{Finds, Gives, row_at, rows_at};

use crate::reader::Reader;
use crate::record_fault::RecordFault;
use std::alloc::Global;
use vt_kinds::{Child, Entries, Language, MacroEntry, ObjectId, Point};

/// A list entry: a row of numbers of fixed sizes.
pub trait Entry: Drop {
    ghost sizes: { List Size };

    ghost numbers: { Self → List Numeral };

    fn read(reader: &mut Reader<'_>) -> Result<Self, RecordFault>
    where
        Self: Sized,
        ensures { Finds (λ x. (numbers x, reader.new)) result (row_at sizes reader.old) };
}

impl Entry for Child {
    ghost sizes = { child_sizes };

    ghost numbers = { child_numbers };

    #[tactic(auto, unfolding(crate::specs::TableReads::row_at))]
    fn read(reader: &mut Reader<'_>) -> Result<Child, RecordFault> {
        reader.need(6)?;
        let id = reader.id();
        let x = reader.i16();
        let y = reader.i16();
        Ok(Child { id, x, y })
    }
}

impl Entry for MacroEntry {
    ghost sizes = { macro_sizes };

    ghost numbers = { macro_numbers };

    #[tactic(auto, unfolding(crate::specs::TableReads::row_at))]
    fn read(reader: &mut Reader<'_>) -> Result<MacroEntry, RecordFault> {
        reader.need(2)?;
        let event = reader.u8();
        let macro_id = reader.u8();
        Ok(MacroEntry { event, macro_id })
    }
}

impl Entry for Language {
    ghost sizes = { language_sizes };

    ghost numbers = { language_numbers };

    #[tactic(auto, unfolding(crate::specs::TableReads::row_at))]
    fn read(reader: &mut Reader<'_>) -> Result<Language, RecordFault> {
        reader.need(2)?;
        let first = reader.u8();
        let second = reader.u8();
        Ok(Language { first, second })
    }
}

impl Entry for ObjectId {
    ghost sizes = { id_sizes };

    ghost numbers = { id_numbers };

    #[tactic(auto, unfolding(crate::specs::TableReads::row_at))]
    fn read(reader: &mut Reader<'_>) -> Result<ObjectId, RecordFault> {
        reader.need(2)?;
        Ok(reader.id())
    }
}

impl Entry for Point {
    ghost sizes = { point_sizes };

    ghost numbers = { point_numbers };

    #[tactic(auto, unfolding(crate::specs::TableReads::row_at))]
    fn read(reader: &mut Reader<'_>) -> Result<Point, RecordFault> {
        reader.need(4)?;
        let x = reader.u16();
        let y = reader.u16();
        Ok(Point { x, y })
    }
}

/// Reads a list of `count` entries.
pub fn entries<T: Entry>(
    alloc: Global,
    reader: &mut Reader<'_>,
    count: u8,
) -> Result<Entries<T>, RecordFault>
    ensures read { Gives (λ x. (map T.numbers x, reader.new)) result (rows_at T.sizes count reader.old) }
    ensures len { IfOk result (λ x. length x ≡ count) }
{
    let mut items = Vec::new(alloc);
    for _ in 0..count {
        items.push(T::read(reader)?)?;
    }
    Ok(Entries::from_vec(items))
}

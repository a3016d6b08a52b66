//! The entries of a record's lists: rows of numbers of fixed sizes.

ghost use Rattle.std.specs.Prelude.{◌≡◌, ◌++◌, List, map, OnOk};
ghost use Rattle.std.specs.List.{AllByRecursion};
ghost use Rattle.vt_kinds.specs.Layout.{Size, Numeral, RowFits, row_spelling, rows_spelling};
ghost use Rattle.vt_kinds.specs.Tables.{child_sizes, child_numbers, macro_sizes, macro_numbers, language_sizes, language_numbers, id_sizes, id_numbers, point_sizes, point_numbers};

use crate::ranges;
use crate::write::{put_u8, put_u16};
use std::alloc::AllocError;
use vt_kinds::{Child, Language, MacroEntry, ObjectId, Point};

/// An entry of a list.
pub trait Entry: Drop {
    ghost sizes: { List Size };

    ghost numbers: { Self → List Numeral };

    /// Appends the numbers of the entry.
    fn write(&self, out: &mut Vec<u8>) -> Result<(), AllocError>
        ensures { OnOk result (out.new.items ≡ out.old.items ++ row_spelling sizes (numbers self.now)) };

    /// Theorem: each number fits its size.
    fn fits(&self)
        ensures { RowFits sizes (numbers self.now) };
}

impl Entry for Child {
    ghost sizes = { child_sizes };

    ghost numbers = { child_numbers };

    fn write(&self, out: &mut Vec<u8>) -> Result<(), AllocError> {
        put_u16(out, self.id.raw())?;
        put_u16(out, self.x.cast_unsigned())?;
        put_u16(out, self.y.cast_unsigned())
    }

    fn fits(&self) {
        ranges::id(self.id);
        ranges::short(self.x);
        ranges::short(self.y);
    }
}

impl Entry for MacroEntry {
    ghost sizes = { macro_sizes };

    ghost numbers = { macro_numbers };

    fn write(&self, out: &mut Vec<u8>) -> Result<(), AllocError> {
        put_u8(out, self.event)?;
        put_u8(out, self.macro_id)
    }

    fn fits(&self) {
        ranges::byte(self.event);
        ranges::byte(self.macro_id);
    }
}

impl Entry for Language {
    ghost sizes = { language_sizes };

    ghost numbers = { language_numbers };

    fn write(&self, out: &mut Vec<u8>) -> Result<(), AllocError> {
        put_u8(out, self.first)?;
        put_u8(out, self.second)
    }

    fn fits(&self) {
        ranges::byte(self.first);
        ranges::byte(self.second);
    }
}

impl Entry for ObjectId {
    ghost sizes = { id_sizes };

    ghost numbers = { id_numbers };

    fn write(&self, out: &mut Vec<u8>) -> Result<(), AllocError> {
        put_u16(out, self.raw())
    }

    fn fits(&self) {
        ranges::id(*self);
    }
}

impl Entry for Point {
    ghost sizes = { point_sizes };

    ghost numbers = { point_numbers };

    fn write(&self, out: &mut Vec<u8>) -> Result<(), AllocError> {
        put_u16(out, self.x)?;
        put_u16(out, self.y)
    }

    fn fits(&self) {
        ranges::word(self.x);
        ranges::word(self.y);
    }
}

/// Appends each entry of a list.
pub fn put_entries<T: Entry>(out: &mut Vec<u8>, entries: &[T]) -> Result<(), AllocError>
    ensures { OnOk result (out.new.items ≡ out.old.items ++ rows_spelling T.sizes (map T.numbers entries.now)) }
{
    for entry in entries {
        entry.write(out)?;
    }
    Ok(())
}

/// Theorem: the numbers of each entry fit their sizes.
pub fn entries_fit<T: Entry>(entries: &[T])
    ensures { AllByRecursion (RowFits T.sizes) (map T.numbers entries.now) }
{
    for entry in entries {
        entry.fits();
    }
}

//! The field layout of each kind's record, after the ID and the type (docs/PROFILE.md, "Records").

ghost use Rattle.std.specs.Prelude.{◌≡◌, map, true};
ghost use Rattle.vt_kinds.specs.Records.{fields_of};
ghost use Rattle.vt_pool.specs.FieldLayouts.{layout_of, are_countable};

use crate::field_layout::{Counted, FieldLayout};
use vt_kinds::Kind;

const BYTE: FieldLayout = FieldLayout::Number(1);

const WORD: FieldLayout = FieldLayout::Number(2);

const LONG: FieldLayout = FieldLayout::Number(4);

const OBJECT_COUNT: FieldLayout = FieldLayout::Count(Counted::Objects, 1);

const MACRO_COUNT: FieldLayout = FieldLayout::Count(Counted::Macros, 1);

const COUNT: FieldLayout = FieldLayout::Count(Counted::Others, 1);

const WORD_COUNT: FieldLayout = FieldLayout::Count(Counted::Others, 2);

const LONG_COUNT: FieldLayout = FieldLayout::Count(Counted::Others, 4);

const CHILDREN: FieldLayout = FieldLayout::List(Counted::Objects, 6);

const KEYS: FieldLayout = FieldLayout::List(Counted::Objects, 2);

const MACROS: FieldLayout = FieldLayout::List(Counted::Macros, 2);

const LANGUAGES: FieldLayout = FieldLayout::List(Counted::Others, 2);

const ITEMS: FieldLayout = FieldLayout::List(Counted::Others, 2);

const POINTS: FieldLayout = FieldLayout::List(Counted::Others, 4);

const CONTENT: FieldLayout = FieldLayout::List(Counted::Others, 1);

const SCALE: FieldLayout = FieldLayout::Scale;

const DECIMALS: FieldLayout = FieldLayout::Decimals;

/// Makes a layout. Its fields stand without commas, so that several share a line.
macro_rules! fields {
    ($($field:ident)+) => {
        &[$($field),+]
    };
}

/// The field layout of a record of this kind.
pub fn layout(kind: Kind) -> &'static [FieldLayout]
    ensures layout { result.now ≡ map layout_of (fields_of kind) }
    ensures countable { are_countable result.now ≡ true }
{
    match kind {
        Kind::WorkingSet => fields![
            BYTE BYTE WORD OBJECT_COUNT MACRO_COUNT COUNT CHILDREN MACROS LANGUAGES
        ],
        Kind::DataMask => fields![BYTE WORD OBJECT_COUNT MACRO_COUNT CHILDREN MACROS],
        Kind::AlarmMask => fields![BYTE WORD BYTE BYTE OBJECT_COUNT MACRO_COUNT CHILDREN MACROS],
        Kind::Container => fields![WORD WORD BYTE OBJECT_COUNT MACRO_COUNT CHILDREN MACROS],
        Kind::SoftKeyMask => fields![BYTE OBJECT_COUNT MACRO_COUNT KEYS MACROS],
        Kind::Key => fields![BYTE BYTE OBJECT_COUNT MACRO_COUNT CHILDREN MACROS],
        Kind::Button => fields![
            WORD WORD BYTE BYTE BYTE BYTE OBJECT_COUNT MACRO_COUNT CHILDREN MACROS
        ],
        Kind::InputBoolean => fields![BYTE WORD WORD WORD BYTE BYTE MACRO_COUNT MACROS],
        Kind::InputString => fields![
            WORD WORD BYTE WORD WORD BYTE WORD BYTE COUNT CONTENT BYTE MACRO_COUNT MACROS
        ],
        Kind::InputNumber => fields![
            WORD WORD BYTE WORD BYTE WORD LONG LONG LONG LONG SCALE DECIMALS BYTE BYTE BYTE
            MACRO_COUNT MACROS
        ],
        Kind::InputList => fields![WORD WORD WORD BYTE COUNT BYTE MACRO_COUNT ITEMS MACROS],
        Kind::OutputString => fields![
            WORD WORD BYTE WORD BYTE WORD BYTE WORD_COUNT CONTENT MACRO_COUNT MACROS
        ],
        Kind::OutputNumber => fields![
            WORD WORD BYTE WORD BYTE WORD LONG LONG SCALE DECIMALS BYTE BYTE MACRO_COUNT MACROS
        ],
        Kind::Line => fields![WORD WORD WORD BYTE MACRO_COUNT MACROS],
        Kind::Rectangle => fields![WORD WORD WORD BYTE WORD MACRO_COUNT MACROS],
        Kind::Ellipse => fields![WORD WORD WORD BYTE BYTE BYTE WORD MACRO_COUNT MACROS],
        Kind::Polygon => fields![WORD WORD WORD WORD BYTE COUNT MACRO_COUNT POINTS MACROS],
        Kind::Meter => fields![
            WORD BYTE BYTE BYTE BYTE BYTE BYTE BYTE WORD WORD WORD WORD MACRO_COUNT MACROS
        ],
        Kind::LinearBar => fields![
            WORD WORD BYTE BYTE BYTE BYTE WORD WORD WORD WORD WORD WORD MACRO_COUNT MACROS
        ],
        Kind::ArchedBar => fields![
            WORD WORD BYTE BYTE BYTE BYTE BYTE WORD WORD WORD WORD WORD WORD WORD MACRO_COUNT MACROS
        ],
        Kind::Picture => fields![
            WORD WORD WORD BYTE BYTE BYTE LONG_COUNT MACRO_COUNT CONTENT MACROS
        ],
        Kind::NumberVariable => fields![LONG],
        Kind::StringVariable => fields![WORD_COUNT CONTENT],
        Kind::Font => fields![BYTE BYTE BYTE BYTE MACRO_COUNT MACROS],
        Kind::LineAttributes => fields![BYTE BYTE WORD MACRO_COUNT MACROS],
        Kind::FillAttributes => fields![BYTE BYTE WORD MACRO_COUNT MACROS],
        Kind::InputAttributes => fields![BYTE COUNT CONTENT MACRO_COUNT MACROS],
        Kind::ObjectPointer => fields![WORD],
        Kind::Macro => fields![WORD_COUNT CONTENT],
    }
}

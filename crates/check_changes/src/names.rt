//! The names of the fields of each kind.

ghost use Rattle.std.specs.Prelude.{◌≡◌};
ghost use Rattle.check_changes.specs.FieldNames.{field_names};
ghost use Rattle.check_changes.specs.Names.{name_bytes};

use vt_kinds::Kind;

/// Makes a list of names. They stand without commas, so that several share a line.
macro_rules! names {
    ($($name:literal)+) => {
        &[$($name),+]
    };
}

/// The names of the fields of a kind, in the order of its record.
pub(crate) fn names_of(kind: Kind) -> &'static [&'static str]
    ensures { name_bytes result.now ≡ field_names kind }
{
    match kind {
        Kind::WorkingSet => names![
            "background colour" "selectable" "active mask" "children" "macros" "languages"
        ],
        Kind::DataMask => names!["background colour" "soft key mask" "children" "macros"],
        Kind::AlarmMask => names![
            "background colour" "soft key mask" "priority" "acoustic signal" "children" "macros"
        ],
        Kind::Container => names!["width" "height" "hidden" "children" "macros"],
        Kind::SoftKeyMask => names!["background colour" "keys" "macros"],
        Kind::Key => names!["background colour" "key code" "children" "macros"],
        Kind::Button => names![
            "width" "height" "background colour" "border colour" "key code" "options" "children"
            "macros"
        ],
        Kind::InputBoolean => names![
            "background colour" "width" "font" "variable" "value" "enabled" "macros"
        ],
        Kind::InputString => names![
            "width" "height" "background colour" "font" "input attributes" "options" "variable"
            "justification" "text" "enabled" "macros"
        ],
        Kind::InputNumber => names![
            "width" "height" "background colour" "font" "options" "variable" "value" "min" "max"
            "offset" "scale" "decimals" "format" "justification" "second options" "macros"
        ],
        Kind::InputList => names!["width" "height" "variable" "value" "options" "items" "macros"],
        Kind::OutputString => names![
            "width" "height" "background colour" "font" "options" "variable" "justification" "text"
            "macros"
        ],
        Kind::OutputNumber => names![
            "width" "height" "background colour" "font" "options" "variable" "value" "offset"
            "scale" "decimals" "format" "justification" "macros"
        ],
        Kind::Line => names!["line attributes" "width" "height" "direction" "macros"],
        Kind::Rectangle => names![
            "line attributes" "width" "height" "line suppression" "fill" "macros"
        ],
        Kind::Ellipse => names![
            "line attributes" "width" "height" "ellipse type" "start angle" "end angle" "fill"
            "macros"
        ],
        Kind::Polygon => names![
            "width" "height" "line attributes" "fill" "polygon type" "points" "macros"
        ],
        Kind::Meter => names![
            "width" "needle colour" "border colour" "arc colour" "options" "ticks" "start angle"
            "end angle" "min" "max" "variable" "value" "macros"
        ],
        Kind::LinearBar => names![
            "width" "height" "bar colour" "target colour" "options" "ticks" "min" "max" "variable"
            "value" "target variable" "target" "macros"
        ],
        Kind::ArchedBar => names![
            "width" "height" "bar colour" "target colour" "options" "start angle" "end angle"
            "bar width" "min" "max" "variable" "value" "target variable" "target" "macros"
        ],
        Kind::Picture => names![
            "width" "actual width" "actual height" "format" "options" "transparency" "bytes"
            "macros"
        ],
        Kind::NumberVariable => names!["value"],
        Kind::StringVariable => names!["text"],
        Kind::Font => names!["font colour" "size" "font type" "style" "macros"],
        Kind::LineAttributes => names!["line colour" "width" "line art" "macros"],
        Kind::FillAttributes => names!["fill type" "fill colour" "pattern" "macros"],
        Kind::InputAttributes => names!["validation type" "text" "macros"],
        Kind::ObjectPointer => names!["value"],
        Kind::Macro => names!["bytes"],
    }
}

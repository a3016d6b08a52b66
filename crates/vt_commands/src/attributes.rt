//! The attributes that Change Attribute writes, by kind and number.

ghost use Rattle.std.specs.Prelude.{◌≡◌};
ghost use Rattle.vt_kinds.specs.Attributes as table;
ghost use Rattle.vt_kinds.specs.Attributes.{attribute_at};

use ValueType::{Byte, Decimals, Long, Priority, Reference, Scale, SignedLong, Word};
use vt_kinds::{Attribute, Field, Kind, Place, ValueType};

/// Makes a list of attributes from fields and their value types.
macro_rules! attributes {
    ($($field:ident: $value_type:expr),+ $(,)?) => {
        &[$(Attribute { field: Field::$field, value_type: $value_type }),+]
    };
}

const FONT_PLACE: ValueType = Reference(Place::Font);

const VARIABLE: ValueType = Reference(Place::Variable);

const LINE_ATTRIBUTES_PLACE: ValueType = Reference(Place::LineAttributes);

const FILL: ValueType = Reference(Place::Fill);

const TARGET_VARIABLE: ValueType = Reference(Place::TargetVariable);

const WORKING_SET: &[Attribute] = attributes![Colour: Byte, Selectable: Byte];

const DATA_MASK: &[Attribute] =
    attributes![Colour: Byte, SoftKeyMask: Reference(Place::SoftKeyMask)];

const ALARM_MASK: &[Attribute] = attributes![
    Colour: Byte,
    SoftKeyMask: Reference(Place::SoftKeyMask),
    Priority: Priority,
    Acoustic: Byte,
];

const CONTAINER: &[Attribute] = attributes![Width: Word, Height: Word];

const SOFT_KEY_MASK: &[Attribute] = attributes![Colour: Byte];

const KEY: &[Attribute] = attributes![Colour: Byte, KeyCode: Byte];

const BUTTON: &[Attribute] = attributes![
    Width: Word,
    Height: Word,
    Colour: Byte,
    Border: Byte,
    KeyCode: Byte,
    Options: Byte,
];

const INPUT_BOOLEAN: &[Attribute] =
    attributes![Colour: Byte, Width: Word, Font: FONT_PLACE, Variable: VARIABLE];

const INPUT_STRING: &[Attribute] = attributes![
    Width: Word,
    Height: Word,
    Colour: Byte,
    Font: FONT_PLACE,
    InputAttributes: Reference(Place::InputAttributes),
    Options: Byte,
    Variable: VARIABLE,
    Justification: Byte,
];

const INPUT_NUMBER: &[Attribute] = attributes![
    Width: Word,
    Height: Word,
    Colour: Byte,
    Font: FONT_PLACE,
    Options: Byte,
    Variable: VARIABLE,
    Min: Long,
    Max: Long,
    Offset: SignedLong,
    Scale: Scale,
    Decimals: Decimals,
    Format: Byte,
    Justification: Byte,
];

const INPUT_LIST: &[Attribute] = attributes![Width: Word, Height: Word, Variable: VARIABLE];

const OUTPUT_STRING: &[Attribute] = attributes![
    Width: Word,
    Height: Word,
    Colour: Byte,
    Font: FONT_PLACE,
    Options: Byte,
    Variable: VARIABLE,
    Justification: Byte,
];

const OUTPUT_NUMBER: &[Attribute] = attributes![
    Width: Word,
    Height: Word,
    Colour: Byte,
    Font: FONT_PLACE,
    Options: Byte,
    Variable: VARIABLE,
    Offset: SignedLong,
    Scale: Scale,
    Decimals: Decimals,
    Format: Byte,
    Justification: Byte,
];

const LINE: &[Attribute] = attributes![
    LineAttributes: LINE_ATTRIBUTES_PLACE,
    Width: Word,
    Height: Word,
    Direction: Byte,
];

const RECTANGLE: &[Attribute] = attributes![
    LineAttributes: LINE_ATTRIBUTES_PLACE,
    Width: Word,
    Height: Word,
    Suppression: Byte,
    Fill: FILL,
];

const ELLIPSE: &[Attribute] = attributes![
    LineAttributes: LINE_ATTRIBUTES_PLACE,
    Width: Word,
    Height: Word,
    Type: Byte,
    Start: Byte,
    End: Byte,
    Fill: FILL,
];

const POLYGON: &[Attribute] = attributes![
    Width: Word,
    Height: Word,
    LineAttributes: LINE_ATTRIBUTES_PLACE,
    Fill: FILL,
    Type: Byte,
];

const METER: &[Attribute] = attributes![
    Width: Word,
    NeedleColour: Byte,
    BorderColour: Byte,
    ArcColour: Byte,
    Options: Byte,
    Ticks: Byte,
    Start: Byte,
    End: Byte,
    Min: Word,
    Max: Word,
    Variable: VARIABLE,
];

const LINEAR_BAR: &[Attribute] = attributes![
    Width: Word,
    Height: Word,
    Colour: Byte,
    TargetColour: Byte,
    Options: Byte,
    Ticks: Byte,
    Min: Word,
    Max: Word,
    Variable: VARIABLE,
    TargetVariable: TARGET_VARIABLE,
    Target: Word,
];

const ARCHED_BAR: &[Attribute] = attributes![
    Width: Word,
    Height: Word,
    Colour: Byte,
    TargetColour: Byte,
    Options: Byte,
    Start: Byte,
    End: Byte,
    BarWidth: Word,
    Min: Word,
    Max: Word,
    Variable: VARIABLE,
    TargetVariable: TARGET_VARIABLE,
    Target: Word,
];

const PICTURE: &[Attribute] = attributes![Width: Word, Options: Byte, Transparency: Byte];

const FONT: &[Attribute] = attributes![Colour: Byte, Size: Byte, Type: Byte, Style: Byte];

const LINE_ATTRIBUTES: &[Attribute] = attributes![Colour: Byte, Width: Byte, LineArt: Word];

const FILL_ATTRIBUTES: &[Attribute] =
    attributes![Type: Byte, Colour: Byte, Pattern: Reference(Place::Pattern)];

const INPUT_ATTRIBUTES: &[Attribute] = attributes![ValidationType: Byte];

const OBJECT_POINTER: &[Attribute] = attributes![Value: Reference(Place::Value)];

/// The options of an Input List, attribute number 5.
const OPTIONS_OF_A_LIST: Attribute = Attribute {
    field: Field::Options,
    value_type: Byte,
};

/// The attribute of a kind with this number, or `None`.
pub fn attribute(kind: Kind, number: u8) -> Option<Attribute>
    ensures { result ≡ attribute_at kind number }
{
    if kind == Kind::InputList && number == 5 {
        return Some(OPTIONS_OF_A_LIST);
    }
    numbered(attributes_of(kind), number)
}

/// The attributes of a kind, numbered from 1. For an Input List only those before its missing number 4.
fn attributes_of(kind: Kind) -> &'static [Attribute]
    ensures { result.now ≡ table.attributes_of kind }
{
    match kind {
        Kind::WorkingSet => WORKING_SET,
        Kind::DataMask => DATA_MASK,
        Kind::AlarmMask => ALARM_MASK,
        Kind::Container => CONTAINER,
        Kind::SoftKeyMask => SOFT_KEY_MASK,
        Kind::Key => KEY,
        Kind::Button => BUTTON,
        Kind::InputBoolean => INPUT_BOOLEAN,
        Kind::InputString => INPUT_STRING,
        Kind::InputNumber => INPUT_NUMBER,
        Kind::InputList => INPUT_LIST,
        Kind::OutputString => OUTPUT_STRING,
        Kind::OutputNumber => OUTPUT_NUMBER,
        Kind::Line => LINE,
        Kind::Rectangle => RECTANGLE,
        Kind::Ellipse => ELLIPSE,
        Kind::Polygon => POLYGON,
        Kind::Meter => METER,
        Kind::LinearBar => LINEAR_BAR,
        Kind::ArchedBar => ARCHED_BAR,
        Kind::Picture => PICTURE,
        Kind::Font => FONT,
        Kind::LineAttributes => LINE_ATTRIBUTES,
        Kind::FillAttributes => FILL_ATTRIBUTES,
        Kind::InputAttributes => INPUT_ATTRIBUTES,
        Kind::ObjectPointer => OBJECT_POINTER,
        Kind::NumberVariable | Kind::StringVariable | Kind::Macro => &[],
    }
}

/// The attribute at a number, counted from 1.
fn numbered(attributes: &[Attribute], number: u8) -> Option<Attribute>
    ensures { result ≡ table.attribute_numbered attributes.now number }
{
    let index = usize::from(number).checked_sub(1)?;
    attributes.get(index).copied()
}

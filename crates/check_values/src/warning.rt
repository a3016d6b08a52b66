//! Warnings about the values of objects.

ghost use Rattle.std.specs.Prelude.{◌≡◌};
ghost use Rattle.check_values.specs.Names.{limited_name, ranged_name};
ghost use Rattle.check_values.specs.Subjects.{object_of};

use vt_objects::{Language, ObjectId, Point};

/// A field of which only some numbers have a meaning.
#[derive(Clone, Copy, Default, PartialEq, Eq)]
pub enum LimitedField {
    #[default]
    Selectable,
    Priority,
    AcousticSignal,
    Hidden,
    Value,
    Enabled,
    Format,
    Direction,
    Suppression,
    Type,
    Start,
    End,
    Size,
    FontType,
    ValidationType,
}

impl LimitedField {
    /// The name of the field in messages.
    pub fn name(self) -> &'static str
        ensures { result.now ≡ limited_name self }
    {
        match self {
            LimitedField::Selectable => "selectable",
            LimitedField::Priority => "priority",
            LimitedField::AcousticSignal => "acoustic signal",
            LimitedField::Hidden => "hidden",
            LimitedField::Value => "value",
            LimitedField::Enabled => "enabled",
            LimitedField::Format => "format",
            LimitedField::Direction => "direction",
            LimitedField::Suppression => "line suppression",
            LimitedField::Type => "type",
            LimitedField::Start => "start angle",
            LimitedField::End => "end angle",
            LimitedField::Size => "size",
            LimitedField::FontType => "font type",
            LimitedField::ValidationType => "validation type",
        }
    }
}

/// The numbers of a field that have a meaning in ISO 11783-6.
#[derive(Clone, Copy, PartialEq, Eq)]
pub enum Meaning {
    /// Those from 0 to this one.
    UpTo(u8),
    /// Those of a font type: 0, 1, 2, 4, 5 and 7, and from 240 on those of a maker of terminals.
    FontTypes,
}

impl Default for Meaning {
    fn default() -> Meaning {
        Meaning::UpTo(0)
    }
}

/// A field with its number, and the numbers that have a meaning.
#[derive(Clone, Copy, Default, PartialEq, Eq)]
pub struct LimitedValue {
    /// The field.
    pub field: LimitedField,
    /// Its number.
    pub value: u8,
    /// The numbers that have a meaning.
    pub meaning: Meaning,
}

/// A field with a number that has a range.
#[derive(Clone, Copy, PartialEq, Eq)]
pub enum RangedField {
    /// The value, or that of the variable.
    Value,
    /// The target, or the value of the target variable.
    Target,
}

impl RangedField {
    /// The name of the field in messages.
    pub fn name(self) -> &'static str
        ensures { result.now ≡ ranged_name self }
    {
        match self {
            RangedField::Value => "value",
            RangedField::Target => "target",
        }
    }
}

/// A number that is not in its range.
#[derive(Clone, Copy, PartialEq, Eq)]
pub struct OutOfRange {
    /// The object that shows the number.
    pub id: ObjectId,
    /// The field that has it.
    pub field: RangedField,
    /// The number at first.
    pub value: u32,
    /// The least number of the range.
    pub min: u32,
    /// The greatest number of the range.
    pub max: u32,
}

/// A point that is not in the area of its Polygon.
#[derive(Clone, Copy, PartialEq, Eq)]
pub struct PointOutside {
    /// The Polygon.
    pub id: ObjectId,
    /// The index of the point in the object's list.
    pub index: usize,
    /// The point.
    pub point: Point,
    /// The width of the area.
    pub width: u16,
    /// The height of the area.
    pub height: u16,
}

/// A String Variable with less space than the Input String that enters it.
#[derive(Clone, Copy, PartialEq, Eq)]
pub struct ShortVariable {
    /// The Input String.
    pub id: ObjectId,
    /// The String Variable.
    pub variable: ObjectId,
    /// The bytes of the variable's text.
    pub bytes: u64,
    /// The bytes of the Input String's own text.
    pub expected: u64,
}

/// A language code that is not two small letters.
#[derive(Clone, Copy, PartialEq, Eq)]
pub struct NoLanguage {
    /// The Working Set.
    pub id: ObjectId,
    /// The index of the code in the object's list.
    pub index: usize,
    /// The bytes of the code.
    pub language: Language,
}

/// A value of an object that is likely a mistake, and for which a terminal does not refuse a pool (docs/PROFILE.md, "Warnings").
#[derive(Clone, Copy, PartialEq, Eq)]
pub enum ValueWarning {
    /// A field has a number without a meaning.
    NoMeaning {
        id: ObjectId,
        limited: LimitedValue,
    },
    /// No number is in the range of a number field, a meter or a bar.
    EmptyRange {
        id: ObjectId,
        min: u32,
        max: u32,
    },
    /// The number that an object shows at first is not in its range.
    OutOfRange(OutOfRange),
    /// The value of an Input List names none of its items.
    NoItem {
        id: ObjectId,
        value: u32,
        items: u8,
    },
    /// The image data of a Picture have fewer or more bytes than its pixels.
    PictureBytes {
        id: ObjectId,
        bytes: u64,
        expected: u64,
    },
    /// The bytes of a Picture end inside a pair of a count and a byte.
    HalfPair {
        id: ObjectId,
        bytes: u64,
    },
    /// A Polygon has fewer than three points.
    FewPoints {
        id: ObjectId,
        points: u8,
    },
    /// A point of a Polygon is outside of its area.
    PointOutside(PointOutside),
    /// The text of a String Variable is shorter than that of the Input String that enters it.
    ShortVariable(ShortVariable),
    /// A macro entry lists an event that an object of its kind never has.
    NeverRaised {
        id: ObjectId,
        /// The index of the entry in the object's list.
        index: usize,
        /// The number of the event.
        event: u8,
    },
    /// A Working Set has no active mask.
    NoActiveMask {
        id: ObjectId,
    },
    /// A Working Set has no child, so there is nothing by which the operator knows it.
    NoDesignator {
        id: ObjectId,
    },
    /// A language code is not two small letters.
    NoLanguage(NoLanguage),
    /// An Alarm Mask or a Key has an input or a button among its children, which is not allowed there.
    InputThere {
        parent: ObjectId,
        /// The index of the child in the object's list.
        index: usize,
        /// The child, or the value of the pointer that is the child.
        id: ObjectId,
    },
    /// A Key or a Button has the code 0, which belongs to the terminal's own key for alarms.
    NoCode {
        id: ObjectId,
    },
    /// The font of a field has the colour of its background, so its text is not seen.
    SameColour {
        id: ObjectId,
        font: ObjectId,
        colour: u8,
    },
    /// A key of a Soft Key Mask has the code of an earlier one.
    SameCode {
        id: ObjectId,
        /// The index of the key in the object's list.
        index: usize,
        key: ObjectId,
        code: u8,
    },
}

impl ValueWarning {
    /// The object that the warning is about.
    pub fn object(&self) -> ObjectId
        ensures { result ≡ object_of self.now }
    {
        match self {
            ValueWarning::NoMeaning { id, .. }
            | ValueWarning::EmptyRange { id, .. }
            | ValueWarning::NoItem { id, .. }
            | ValueWarning::PictureBytes { id, .. }
            | ValueWarning::HalfPair { id, .. }
            | ValueWarning::FewPoints { id, .. }
            | ValueWarning::NeverRaised { id, .. }
            | ValueWarning::NoActiveMask { id }
            | ValueWarning::NoDesignator { id }
            | ValueWarning::NoCode { id }
            | ValueWarning::SameColour { id, .. }
            | ValueWarning::SameCode { id, .. } => *id,
            ValueWarning::InputThere { parent, .. } => *parent,
            ValueWarning::OutOfRange(it) => it.id,
            ValueWarning::PointOutside(it) => it.id,
            ValueWarning::ShortVariable(it) => it.id,
            ValueWarning::NoLanguage(it) => it.id,
        }
    }
}

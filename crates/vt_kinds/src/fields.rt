//! The fields that Change Attribute may write, and their value types.

ghost use Rattle.std.specs.Prelude.{◌≡◌, ◌↔◌, IsTrue};
ghost use Rattle.vt_kinds.specs.Attributes as table;
ghost use Rattle.vt_kinds.specs.Attributes.{Accepts};
ghost use Rattle.vt_kinds.specs.Scales.{IsScale};

use crate::id::ObjectId;
use crate::kind::Kind;
use crate::place::Place;
use crate::scale::Scale;

/// A field of an object that Change Attribute writes.
#[derive(Clone, Copy, PartialEq, Eq)]
pub enum Field {
    Colour,
    Selectable,
    SoftKeyMask,
    Priority,
    Acoustic,
    Width,
    Height,
    Border,
    KeyCode,
    Options,
    Font,
    Variable,
    InputAttributes,
    Justification,
    Min,
    Max,
    Offset,
    Scale,
    Decimals,
    Format,
    LineAttributes,
    Direction,
    Suppression,
    Fill,
    Type,
    Start,
    End,
    NeedleColour,
    BorderColour,
    ArcColour,
    Ticks,
    TargetColour,
    TargetVariable,
    Target,
    BarWidth,
    Transparency,
    Size,
    Style,
    LineArt,
    Pattern,
    ValidationType,
    Value,
}

/// The values that a field accepts (docs/PROFILE.md, "Values of attributes"). A field of fewer than four bytes
/// stores the lowest bytes of a value.
#[derive(Clone, Copy, PartialEq, Eq)]
pub enum ValueType {
    /// Every value of one byte.
    Byte,
    /// Every value of two bytes.
    Word,
    /// Every value of four bytes.
    Long,
    /// Every value of four bytes, signed.
    SignedLong,
    /// An ID of two bytes: NULL or that of an object, as this `Place` allows. The value of an object pointer must meet
    /// further conditions.
    Reference(Place),
    /// A priority, 0 to 2, one byte.
    Priority,
    /// A scale, its four bytes.
    Scale,
    /// A number of decimals, 0 to 7, one byte.
    Decimals,
}

impl ValueType {
    /// The number of bytes of the field.
    pub fn width(self) -> u8
        ensures { result ≡ table.width self }
    {
        match self {
            ValueType::Byte | ValueType::Priority | ValueType::Decimals => 1,
            ValueType::Word | ValueType::Reference(_) => 2,
            ValueType::Long | ValueType::SignedLong | ValueType::Scale => 4,
        }
    }

    /// The lowest bytes of a value, as many as the field stores.
    pub fn lowest(self, value: u32) -> u32
        ensures { result ≡ table.lowest self value }
    {
        match self {
            ValueType::Byte | ValueType::Priority | ValueType::Decimals => value % 256,
            ValueType::Word | ValueType::Reference(_) => value % 65_536,
            ValueType::Long | ValueType::SignedLong | ValueType::Scale => value,
        }
    }

    /// Whether a field in an object of this kind accepts the lowest bytes of a value. For a reference, `referenced` is the
    /// kind of the referenced object, or `None` if it does not exist.
    pub fn accepts(self, kind: Kind, value: u32, referenced: Option<Kind>) -> bool
        ensures { IsTrue result ↔ Accepts kind self (table.lowest self value) referenced }
    {
        let lowest = self.lowest(value);
        match self {
            ValueType::Byte | ValueType::Word | ValueType::Long | ValueType::SignedLong => true,
            ValueType::Reference(place) if lowest == u32::from(ObjectId::NULL.raw()) =>
                place.allows_null(),
            ValueType::Reference(place) => match referenced {
                Some(referenced) => place.kinds(kind).contains(referenced),
                None => false,
            },
            ValueType::Priority => lowest <= 2,
            ValueType::Scale => is_scale(lowest),
            ValueType::Decimals => lowest <= 7,
        }
    }
}

/// Whether the four bytes of some scale are this number.
fn is_scale(number: u32) -> bool
    ensures { IsTrue result ↔ IsScale number }
{
    Scale::from_bytes(number.to_le_bytes()).is_some()
}

/// A field that Change Attribute writes, with its value type.
#[derive(Clone, Copy, PartialEq, Eq)]
pub struct Attribute {
    pub field: Field,
    pub value_type: ValueType,
}

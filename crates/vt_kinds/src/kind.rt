//! The kinds of objects.

ghost use Rattle.std.specs.Prelude.{◌≡◌, Some};
ghost use Rattle.vt_kinds.specs.Kinds.{kind_number, kind_of_type, kind_name};

use std::fmt;

/// The kind of an object. A record gives it as a number, the object's type.
#[derive(Clone, Copy, PartialEq, Eq)]
pub enum Kind {
    WorkingSet,
    DataMask,
    AlarmMask,
    Container,
    SoftKeyMask,
    Key,
    Button,
    InputBoolean,
    InputString,
    InputNumber,
    InputList,
    OutputString,
    OutputNumber,
    Line,
    Rectangle,
    Ellipse,
    Polygon,
    Meter,
    LinearBar,
    ArchedBar,
    Picture,
    NumberVariable,
    StringVariable,
    Font,
    LineAttributes,
    FillAttributes,
    InputAttributes,
    ObjectPointer,
    Macro,
}

impl Kind {
    /// The type number of this kind in a record.
    pub fn number(self) -> u8
        ensures { result ≡ kind_number self }
    {
        match self {
            Kind::WorkingSet => 0,
            Kind::DataMask => 1,
            Kind::AlarmMask => 2,
            Kind::Container => 3,
            Kind::SoftKeyMask => 4,
            Kind::Key => 5,
            Kind::Button => 6,
            Kind::InputBoolean => 7,
            Kind::InputString => 8,
            Kind::InputNumber => 9,
            Kind::InputList => 10,
            Kind::OutputString => 11,
            Kind::OutputNumber => 12,
            Kind::Line => 13,
            Kind::Rectangle => 14,
            Kind::Ellipse => 15,
            Kind::Polygon => 16,
            Kind::Meter => 17,
            Kind::LinearBar => 18,
            Kind::ArchedBar => 19,
            Kind::Picture => 20,
            Kind::NumberVariable => 21,
            Kind::StringVariable => 22,
            Kind::Font => 23,
            Kind::LineAttributes => 24,
            Kind::FillAttributes => 25,
            Kind::InputAttributes => 26,
            Kind::ObjectPointer => 27,
            Kind::Macro => 28,
        }
    }

    /// The kind of a type number, or `None` if no kind has it.
    pub fn from_number(number: u8) -> Option<Kind>
        ensures { result ≡ kind_of_type number }
    {
        match number {
            0 => Some(Kind::WorkingSet),
            1 => Some(Kind::DataMask),
            2 => Some(Kind::AlarmMask),
            3 => Some(Kind::Container),
            4 => Some(Kind::SoftKeyMask),
            5 => Some(Kind::Key),
            6 => Some(Kind::Button),
            7 => Some(Kind::InputBoolean),
            8 => Some(Kind::InputString),
            9 => Some(Kind::InputNumber),
            10 => Some(Kind::InputList),
            11 => Some(Kind::OutputString),
            12 => Some(Kind::OutputNumber),
            13 => Some(Kind::Line),
            14 => Some(Kind::Rectangle),
            15 => Some(Kind::Ellipse),
            16 => Some(Kind::Polygon),
            17 => Some(Kind::Meter),
            18 => Some(Kind::LinearBar),
            19 => Some(Kind::ArchedBar),
            20 => Some(Kind::Picture),
            21 => Some(Kind::NumberVariable),
            22 => Some(Kind::StringVariable),
            23 => Some(Kind::Font),
            24 => Some(Kind::LineAttributes),
            25 => Some(Kind::FillAttributes),
            26 => Some(Kind::InputAttributes),
            27 => Some(Kind::ObjectPointer),
            28 => Some(Kind::Macro),
            _ => None,
        }
    }
}

impl fmt::Display for Kind {
    ghost output = { λ kind. Some (kind_name kind) };

    fn fmt<W: fmt::Write>(&self, f: &mut fmt::Formatter<W>) -> fmt::Result {
        let name = match self {
            Kind::WorkingSet => "Working Set",
            Kind::DataMask => "Data Mask",
            Kind::AlarmMask => "Alarm Mask",
            Kind::Container => "Container",
            Kind::SoftKeyMask => "Soft Key Mask",
            Kind::Key => "Key",
            Kind::Button => "Button",
            Kind::InputBoolean => "Input Boolean",
            Kind::InputString => "Input String",
            Kind::InputNumber => "Input Number",
            Kind::InputList => "Input List",
            Kind::OutputString => "Output String",
            Kind::OutputNumber => "Output Number",
            Kind::Line => "Output Line",
            Kind::Rectangle => "Output Rectangle",
            Kind::Ellipse => "Output Ellipse",
            Kind::Polygon => "Output Polygon",
            Kind::Meter => "Output Meter",
            Kind::LinearBar => "Output Linear Bar Graph",
            Kind::ArchedBar => "Output Arched Bar Graph",
            Kind::Picture => "Picture Graphic",
            Kind::NumberVariable => "Number Variable",
            Kind::StringVariable => "String Variable",
            Kind::Font => "Font Attributes",
            Kind::LineAttributes => "Line Attributes",
            Kind::FillAttributes => "Fill Attributes",
            Kind::InputAttributes => "Input Attributes",
            Kind::ObjectPointer => "Object Pointer",
            Kind::Macro => "Macro",
        };
        write!(f, "{name}")
    }
}

//! Sets of kinds.

ghost use Rattle.std.specs.Prelude.{◌≡◌};
ghost use Rattle.vt_kinds.specs.References.{
  drawn_in_working_set,
  parents,
  sized,
  coloured,
  inputs,
  numeric,
  texts,
  with_attributes,
  is_among,
  is_member,
};

use crate::kind::Kind;

/// A set of kinds: those allowed in a reference, or those that a command changes (docs/PROFILE.md, "Places and
/// their kinds" and "Commands").
#[derive(Clone, Copy, PartialEq, Eq)]
pub enum Kinds {
    Masks,
    SoftKeyMasks,
    /// The drawn kinds: working sets, containers, buttons, inputs, outputs, shapes, graphs, pictures, and pointers.
    Drawn,
    /// The drawn kinds except working sets.
    DrawnInWorkingSet,
    /// Keys and object pointers.
    Keys,
    Fonts,
    InputAttributes,
    NumberVariables,
    StringVariables,
    LineAttributes,
    FillAttributes,
    Pictures,
    AllButPointers,
    WorkingSets,
    AlarmMasks,
    Containers,
    /// The kinds with positioned children: working sets, masks, containers, keys and buttons.
    Parents,
    /// The kinds with a size that a command changes.
    Sized,
    /// The kinds with a background colour that a command changes.
    Coloured,
    /// The kinds that a command enables and disables.
    Inputs,
    InputLists,
    /// The kinds with a numeric value that a command changes, object pointers included.
    Numeric,
    /// The kinds with a text that a command changes.
    Texts,
    Lines,
    /// The kinds with attributes that a command changes.
    WithAttributes,
    Macros,
}

impl Kinds {
    /// Whether the set contains a kind.
    pub fn contains(self, kind: Kind) -> bool
        ensures { result ≡ is_member self kind }
    {
        match self {
            Kinds::Masks => matches!(kind, Kind::DataMask | Kind::AlarmMask),
            Kinds::SoftKeyMasks => matches!(kind, Kind::SoftKeyMask),
            Kinds::Drawn => matches!(kind, Kind::WorkingSet) || is_drawn_in_working_set(kind),
            Kinds::DrawnInWorkingSet => is_drawn_in_working_set(kind),
            Kinds::Keys => matches!(kind, Kind::Key | Kind::ObjectPointer),
            Kinds::Fonts => matches!(kind, Kind::Font),
            Kinds::InputAttributes => matches!(kind, Kind::InputAttributes),
            Kinds::NumberVariables => matches!(kind, Kind::NumberVariable),
            Kinds::StringVariables => matches!(kind, Kind::StringVariable),
            Kinds::LineAttributes => matches!(kind, Kind::LineAttributes),
            Kinds::FillAttributes => matches!(kind, Kind::FillAttributes),
            Kinds::Pictures => matches!(kind, Kind::Picture),
            Kinds::AllButPointers => !matches!(kind, Kind::ObjectPointer),
            Kinds::WorkingSets => matches!(kind, Kind::WorkingSet),
            Kinds::AlarmMasks => matches!(kind, Kind::AlarmMask),
            Kinds::Containers => matches!(kind, Kind::Container),
            Kinds::Parents => is_parent(kind),
            Kinds::Sized => is_sized(kind),
            Kinds::Coloured => is_coloured(kind),
            Kinds::Inputs => is_input(kind),
            Kinds::InputLists => matches!(kind, Kind::InputList),
            Kinds::Numeric => is_numeric(kind),
            Kinds::Texts => is_text(kind),
            Kinds::Lines => matches!(kind, Kind::Line),
            Kinds::WithAttributes => has_attributes(kind),
            Kinds::Macros => matches!(kind, Kind::Macro),
        }
    }
}

fn is_drawn_in_working_set(kind: Kind) -> bool
    ensures { result ≡ is_among drawn_in_working_set kind }
{
    matches!(
        kind,
        Kind::Container
            | Kind::Button
            | Kind::InputBoolean
            | Kind::InputString
            | Kind::InputNumber
            | Kind::InputList
            | Kind::OutputString
            | Kind::OutputNumber
            | Kind::Line
            | Kind::Rectangle
            | Kind::Ellipse
            | Kind::Polygon
            | Kind::Meter
            | Kind::LinearBar
            | Kind::ArchedBar
            | Kind::Picture
            | Kind::ObjectPointer
    )
}

fn is_parent(kind: Kind) -> bool
    ensures { result ≡ is_among parents kind }
{
    matches!(
        kind,
        Kind::WorkingSet
            | Kind::DataMask
            | Kind::AlarmMask
            | Kind::Container
            | Kind::Key
            | Kind::Button
    )
}

fn is_sized(kind: Kind) -> bool
    ensures { result ≡ is_among sized kind }
{
    matches!(
        kind,
        Kind::Container
            | Kind::Button
            | Kind::InputBoolean
            | Kind::InputString
            | Kind::InputNumber
            | Kind::InputList
            | Kind::OutputString
            | Kind::OutputNumber
            | Kind::Rectangle
            | Kind::Ellipse
            | Kind::Polygon
            | Kind::Meter
            | Kind::LinearBar
            | Kind::ArchedBar
            | Kind::Picture
    )
}

fn is_coloured(kind: Kind) -> bool
    ensures { result ≡ is_among coloured kind }
{
    matches!(
        kind,
        Kind::WorkingSet
            | Kind::DataMask
            | Kind::AlarmMask
            | Kind::SoftKeyMask
            | Kind::Key
            | Kind::Button
            | Kind::InputBoolean
            | Kind::InputString
            | Kind::InputNumber
            | Kind::OutputString
            | Kind::OutputNumber
    )
}

fn is_input(kind: Kind) -> bool
    ensures { result ≡ is_among inputs kind }
{
    matches!(
        kind,
        Kind::InputBoolean | Kind::InputString | Kind::InputNumber | Kind::InputList
    )
}

fn is_numeric(kind: Kind) -> bool
    ensures { result ≡ is_among numeric kind }
{
    matches!(
        kind,
        Kind::InputBoolean
            | Kind::InputNumber
            | Kind::InputList
            | Kind::OutputNumber
            | Kind::Meter
            | Kind::LinearBar
            | Kind::ArchedBar
            | Kind::NumberVariable
            | Kind::ObjectPointer
    )
}

fn is_text(kind: Kind) -> bool
    ensures { result ≡ is_among texts kind }
{
    matches!(
        kind,
        Kind::InputString | Kind::OutputString | Kind::StringVariable
    )
}

fn has_attributes(kind: Kind) -> bool
    ensures { result ≡ is_among with_attributes kind }
{
    !matches!(
        kind,
        Kind::NumberVariable | Kind::StringVariable | Kind::Macro
    )
}

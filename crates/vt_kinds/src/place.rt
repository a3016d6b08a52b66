//! The references of an object, by field or list entry.

ghost use Rattle.std.specs.Prelude.{◌≡◌};
ghost use Rattle.vt_kinds.specs.References.{allowed, may_be_null};

use crate::kind::Kind;
use crate::kinds::Kinds;

/// The field or list entry of a reference in its object. Entries are counted from 0.
#[derive(Clone, Copy, PartialEq, Eq)]
pub enum Place {
    ActiveMask,
    SoftKeyMask,
    Child(u8),
    Key(u8),
    Font,
    InputAttributes,
    Variable,
    TargetVariable,
    Item(u8),
    LineAttributes,
    Fill,
    Pattern,
    /// The value of an object pointer.
    Value,
}

impl Place {
    /// The kinds that this reference allows in an object of a kind.
    pub fn kinds(self, kind: Kind) -> Kinds
        ensures { result ≡ allowed kind self }
    {
        match self {
            Place::ActiveMask => Kinds::Masks,
            Place::SoftKeyMask => Kinds::SoftKeyMasks,
            Place::Child(_) if kind == Kind::WorkingSet => Kinds::DrawnInWorkingSet,
            Place::Child(_) => Kinds::Drawn,
            Place::Key(_) => Kinds::Keys,
            Place::Font => Kinds::Fonts,
            Place::InputAttributes => Kinds::InputAttributes,
            Place::Variable if matches!(kind, Kind::InputString | Kind::OutputString) => {
                Kinds::StringVariables
            }
            Place::Variable => Kinds::NumberVariables,
            Place::TargetVariable => Kinds::NumberVariables,
            Place::Item(_) => Kinds::Drawn,
            Place::LineAttributes => Kinds::LineAttributes,
            Place::Fill => Kinds::FillAttributes,
            Place::Pattern => Kinds::Pictures,
            Place::Value => Kinds::AllButPointers,
        }
    }

    /// Whether this reference may be NULL.
    pub fn allows_null(self) -> bool
        ensures { result ≡ may_be_null self }
    {
        !matches!(self, Place::Child(_))
    }
}

//! Sets of kinds in words.

use std::fmt;
use vt_objects::{Kind, Kinds};

/// A set of kinds in words, such as `Data Mask or Alarm Mask`.
#[derive(Clone, Copy, Drop)]
pub(crate) struct KindsText {
    pub(crate) kinds: Kinds,
}

impl fmt::Display for KindsText {
    fn fmt<W: fmt::Write>(&self, f: &mut fmt::Formatter<W>) -> fmt::Result {
        match phrase(self.kinds) {
            Some(phrase) => f.write_str(phrase),
            None => write_names(f, self.kinds),
        }
    }
}

/// The words for a set whose kinds are not listed. `None` if they are.
fn phrase(kinds: Kinds) -> Option<&'static str> {
    match kinds {
        Kinds::Drawn => Some("an object that is drawn"),
        Kinds::DrawnInWorkingSet => Some("an object that is drawn, but no Working Set"),
        Kinds::AllButPointers => Some("any object but an Object Pointer"),
        Kinds::WithAttributes => {
            Some("any object but a Number Variable, a String Variable or a Macro")
        }
        // Entries and commands have one byte for the ID of a macro.
        Kinds::Macros => Some("a Macro with an ID up to 255"),
        Kinds::Masks
        | Kinds::SoftKeyMasks
        | Kinds::Keys
        | Kinds::Fonts
        | Kinds::InputAttributes
        | Kinds::NumberVariables
        | Kinds::StringVariables
        | Kinds::LineAttributes
        | Kinds::FillAttributes
        | Kinds::Pictures
        | Kinds::WorkingSets
        | Kinds::AlarmMasks
        | Kinds::Containers
        | Kinds::Parents
        | Kinds::Sized
        | Kinds::Coloured
        | Kinds::Inputs
        | Kinds::InputLists
        | Kinds::Numeric
        | Kinds::Texts
        | Kinds::Lines => None,
    }
}

/// Writes the kinds of a set by their names, with commas and a last `or`.
fn write_names<W: fmt::Write>(f: &mut fmt::Formatter<W>, kinds: Kinds) -> fmt::Result {
    let mut left = size_of(kinds);
    for number in 0..=u8::MAX {
        if let Some(kind) = Kind::from_number(number)
            && kinds.contains(kind)
        {
            left = left.saturating_sub(1);
            let separator = match left {
                0 => "",
                1 => " or ",
                _ => ", ",
            };
            write!(f, "{kind}{separator}")?;
        }
    }
    Ok(())
}

/// How many kinds a set has.
fn size_of(kinds: Kinds) -> u8 {
    let mut size = 0u8;
    for number in 0..=u8::MAX {
        if let Some(kind) = Kind::from_number(number)
            && kinds.contains(kind)
        {
            size = size.saturating_add(1);
        }
    }
    size
}

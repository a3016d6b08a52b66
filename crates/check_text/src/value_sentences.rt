//! The sentences of warnings about values.

use crate::checked_pool::CheckedPool;
use crate::events::event_name;
use crate::variables::variable_of;
use check_values::{LimitedValue, Meaning, RangedField, ValueWarning};
use std::fmt;
use vt_objects::{Event, ObjectId, Store};

/// The sentence of a warning about a value, with the kind and the name of its object.
#[derive(Clone, Copy, Drop)]
pub(crate) struct ValueSentence<'a, 'b> {
    pub(crate) source: CheckedPool<'a>,
    pub(crate) warning: &'b ValueWarning,
}

impl fmt::Display for ValueSentence<'_, '_> {
    fn fmt<W: fmt::Write>(&self, f: &mut fmt::Formatter<W>) -> fmt::Result {
        write!(f, "{}: ", self.source.label(self.warning.object()))?;
        match self.warning {
            ValueWarning::NoMeaning { limited, .. } => write_no_meaning(f, *limited),
            ValueWarning::EmptyRange { min, max, .. } => {
                write!(f, "the maximum {max} is not above the minimum {min}")
            }
            ValueWarning::OutOfRange(it) => {
                write!(f, "the {} {}", it.field.name(), it.value)?;
                self.write_variable(f, it.id, it.field)?;
                write!(f, " is not from {} to {}", it.min, it.max)
            }
            ValueWarning::NoItem { id, value, items } => {
                write!(f, "value {value}")?;
                self.write_variable(f, *id, RangedField::Value)?;
                write!(f, "; expected an index below {items}, or 255 for no item")
            }
            ValueWarning::PictureBytes {
                bytes,
                expected,
                ..
            } => {
                write!(
                    f,
                    "image data of {bytes} bytes; expected {expected} for its pixels"
                )
            }
            ValueWarning::HalfPair { bytes, .. } => {
                write!(
                    f,
                    "its {bytes} bytes end inside a pair of a count and a byte"
                )
            }
            ValueWarning::FewPoints { points, .. } => write!(
                f,
                "number of points {points}; expected at least 3"
            ),
            ValueWarning::PointOutside(it) => write!(
                f,
                "point {} at {},{} is outside of its area of {}x{}",
                it.index, it.point.x, it.point.y, it.width, it.height
            ),
            ValueWarning::ShortVariable(it) => {
                let variable = self.source.label(it.variable);
                write!(
                    f,
                    "{variable} has {} bytes; expected at least {}, the length of its texts",
                    it.bytes, it.expected
                )
            }
            ValueWarning::NeverRaised { index, event, .. } => write_never_raised(f, *index, *event),
            ValueWarning::NoActiveMask { .. } => {
                f.write_str(
                    "active mask 65535, which is none; expected a Data Mask or an Alarm Mask",
                )
            }
            ValueWarning::NoDesignator { .. } => {
                f.write_str("no child; expected a designator, by which the operator knows it")
            }
            ValueWarning::NoLanguage(it) => write!(
                f,
                "the bytes of language {} are {:02X} {:02X}; expected two small letters, such as en",
                it.index, it.language.first, it.language.second
            ),
            ValueWarning::InputThere { index, id, .. } => {
                let child = self.source.label(*id);
                write!(
                    f,
                    "child {index}, {child}, is an input or a button, which is not allowed there"
                )
            }
            ValueWarning::NoCode { .. } => {
                f.write_str(
                    "key code 0, which is for the terminal's own key for alarms; expected 1 to 255",
                )
            }
            ValueWarning::SameCode {
                index,
                key,
                code,
                ..
            } => {
                let key = self.source.label(*key);
                write!(
                    f,
                    "key {index}, {key}, has the code {code} of an earlier key; expected one of its own"
                )
            }
            ValueWarning::SameColour { font, colour, .. } => {
                let font = self.source.label(*font);
                write!(
                    f,
                    "its text cannot be seen: its background and {font} have the colour {colour}"
                )
            }
        }
    }
}

impl ValueSentence<'_, '_> {
    /// Writes the variable from which an object takes a number, if it does.
    fn write_variable<W: fmt::Write>(
        &self,
        f: &mut fmt::Formatter<W>,
        id: ObjectId,
        field: RangedField,
    ) -> fmt::Result {
        let Some(object) = self.source.inspection.objects.get(id) else {
            return Ok(());
        };
        let variable = variable_of(object, field);
        if variable.is_null() {
            return Ok(());
        }
        write!(f, " of {}", self.source.label(variable))
    }
}

fn write_no_meaning<W: fmt::Write>(
    f: &mut fmt::Formatter<W>,
    limited: LimitedValue,
) -> fmt::Result {
    let LimitedValue {
        field,
        value,
        meaning,
    } = limited;
    let name = field.name();
    match meaning {
        Meaning::UpTo(most) => write!(f, "{name} {value}; expected 0 to {most}"),
        Meaning::FontTypes => write!(
            f,
            "{name} {value}; expected 0, 1, 2, 4, 5, 7, or a type of the terminal's maker from 240 on"
        ),
    }
}

fn write_never_raised<W: fmt::Write>(
    f: &mut fmt::Formatter<W>,
    index: usize,
    event: u8,
) -> fmt::Result {
    match Event::from_number(event) {
        Some(_) => {
            let name = event_name(event);
            write!(
                f,
                "macro entry {index} lists {name}, an event that an object of its kind never has"
            )
        }
        None => write!(
            f,
            "macro entry {index} lists event {event}, which does not exist"
        ),
    }
}

//! A command in words.

use crate::commands::attributes::field_name;
use crate::objects::Objects;
use std::fmt;
use vt_commands::{Command, attribute};
use vt_frames_text::{QuotedText, ShownScale, function_name};
use vt_kinds::{Kind, ObjectId, ValueType};

/// What is taken off the steps of Change Child Location: the byte 127 is no step.
const NO_STEP: i16 = 127;

/// A command with its fields, such as ``Hide/Show Object: Container 100 `boom`, hide``. The object that the command changes is the first.
#[derive(Clone, Copy, Drop)]
pub(crate) struct CommandSentence<'a, 'b> {
    /// The command.
    pub(crate) command: &'b Command<'a>,
    /// The objects of the working set that sends it.
    pub(crate) objects: Objects<'b>,
}

impl fmt::Display for CommandSentence<'_, '_> {
    fn fmt<W: fmt::Write>(&self, f: &mut fmt::Formatter<W>) -> fmt::Result {
        f.write_str(function_name(self.command.function()).unwrap_or("command"))?;
        if let Some(id) = self.command.object() {
            write!(f, ": {}", self.objects.object(id))?;
        }
        self.write_fields(f)
    }
}

impl CommandSentence<'_, '_> {
    /// Writes the fields of the command behind its object.
    fn write_fields<W: fmt::Write>(&self, f: &mut fmt::Formatter<W>) -> fmt::Result {
        match *self.command {
            Command::HideShow { state, .. } => write_state(f, state, "hide", "show"),
            Command::EnableDisable { state, .. } => write_state(f, state, "disable", "enable"),
            Command::ControlAudio {
                count,
                frequency,
                on,
                off,
            } => write!(
                f,
                ": count {count}, frequency {frequency} Hz, on {on} ms, off {off} ms"
            ),
            Command::SetVolume { volume } => write!(f, ": {volume} %"),
            Command::ChangeChildLocation { child, dx, dy, .. } => {
                let child = self.objects.object(child);
                let right = i16::from(dx) - NO_STEP;
                let down = i16::from(dy) - NO_STEP;
                write!(f, ", child {child}, dx {right}, dy {down}")
            }
            Command::ChangeSize { width, height, .. } => {
                write!(f, ", width {width}, height {height}")
            }
            Command::ChangeBackgroundColour { colour, .. } => write!(f, ", colour {colour}"),
            Command::ChangeNumericValue { id, value } => self.write_number(f, id, value),
            Command::ChangeEndPoint {
                width,
                height,
                direction,
                ..
            } => write!(f, ", width {width}, height {height}, direction {direction}"),
            Command::ChangeFontAttributes {
                colour,
                size,
                font_type,
                style,
                ..
            } => write!(
                f,
                ", colour {colour}, size {size}, type {font_type}, style {style}"
            ),
            Command::ChangeLineAttributes {
                colour,
                width,
                line_art,
                ..
            } => write!(
                f,
                ", colour {colour}, width {width}, line art {line_art:04X}"
            ),
            Command::ChangeFillAttributes {
                fill_type,
                colour,
                pattern,
                ..
            } => {
                let pattern = self.objects.object(pattern);
                write!(f, ", type {fill_type}, colour {colour}, pattern {pattern}")
            }
            Command::ChangeActiveMask { mask, .. } => {
                write!(f, ", to {}", self.objects.object(mask))
            }
            Command::ChangeSoftKeyMask {
                mask_type,
                keys,
                ..
            } => {
                let keys = self.objects.object(keys);
                write!(f, ", type {mask_type}, to {keys}")
            }
            Command::ChangeAttribute { id, number, value } => {
                self.write_attribute(f, id, number, value)
            }
            Command::ChangePriority { priority, .. } => write!(f, ", priority {priority}"),
            Command::ChangeListItem { index, item, .. } => {
                let item = self.objects.object(item);
                write!(f, ", index {index}, item {item}")
            }
            Command::DeletePool | Command::ExecuteMacro { .. } => Ok(()),
            Command::ChangeStringValue {
                length,
                ref text,
                ..
            } => {
                let text = QuotedText(text.as_slice());
                write!(f, ", length {length}, {text}")
            }
            Command::ChangeChildPosition { child, x, y, .. } => {
                write!(f, ", child {}, x {x}, y {y}", self.objects.object(child))
            }
        }
    }

    /// Writes the value of Change Numeric Value: those of its bytes that count for the kind of the object, or the object that they name
    /// for an Object Pointer.
    fn write_number<W: fmt::Write>(
        &self,
        f: &mut fmt::Formatter<W>,
        id: ObjectId,
        value: u32,
    ) -> fmt::Result {
        match self.objects.kind(id) {
            Some(Kind::ObjectPointer) => {
                let named = self.objects.object(lowest_id(value));
                write!(f, ", value {named}")
            }
            Some(kind) => write!(f, ", value {}", value_bytes(kind).lowest(value)),
            None => write!(f, ", value {value}"),
        }
    }

    /// Writes the attribute of Change Attribute by its number and its name, and its new value.
    fn write_attribute<W: fmt::Write>(
        &self,
        f: &mut fmt::Formatter<W>,
        id: ObjectId,
        number: u8,
        value: u32,
    ) -> fmt::Result {
        write!(f, ", attribute {number}")?;
        let found = match self.objects.kind(id) {
            Some(kind) => attribute(kind, number),
            None => None,
        };
        let Some(found) = found else {
            return write!(f, ", value {value}");
        };
        write!(f, " ({}), value ", field_name(found.field))?;
        match found.value_type {
            ValueType::Reference(_) => write!(f, "{}", self.objects.object(lowest_id(value))),
            ValueType::SignedLong => write!(f, "{}", value.cast_signed()),
            ValueType::Scale => write!(f, "{}", ShownScale(value)),
            value_type => write!(f, "{}", value_type.lowest(value)),
        }
    }
}

/// Writes a state of 0 or 1 in words.
fn write_state<W: fmt::Write>(
    f: &mut fmt::Formatter<W>,
    state: u8,
    zero: &str,
    one: &str,
) -> fmt::Result {
    match state {
        0 => write!(f, ", {zero}"),
        1 => write!(f, ", {one}"),
        _ => write!(f, ", state {state}"),
    }
}

/// The bytes of the value of Change Numeric Value that count for a kind (docs/PROFILE.md, "Commands: Change Numeric Value (A8)"): the
/// lowest for an Input Boolean and an Input List, the two lowest for a Meter and a bar, and else all four.
fn value_bytes(kind: Kind) -> ValueType {
    match kind {
        Kind::InputBoolean | Kind::InputList => ValueType::Byte,
        Kind::Meter | Kind::LinearBar | Kind::ArchedBar => ValueType::Word,
        Kind::WorkingSet
        | Kind::DataMask
        | Kind::AlarmMask
        | Kind::Container
        | Kind::SoftKeyMask
        | Kind::Key
        | Kind::Button
        | Kind::InputString
        | Kind::InputNumber
        | Kind::OutputString
        | Kind::OutputNumber
        | Kind::Line
        | Kind::Rectangle
        | Kind::Ellipse
        | Kind::Polygon
        | Kind::Picture
        | Kind::NumberVariable
        | Kind::StringVariable
        | Kind::Font
        | Kind::LineAttributes
        | Kind::FillAttributes
        | Kind::InputAttributes
        | Kind::ObjectPointer
        | Kind::Macro => ValueType::Long,
    }
}

/// The ID in the two lowest bytes of a value.
fn lowest_id(value: u32) -> ObjectId {
    ObjectId::from_raw((value % 65_536) as u16)
}

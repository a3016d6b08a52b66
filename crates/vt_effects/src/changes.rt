//! The effect of each command on its object.

ghost use Rattle.std.specs.Prelude.{◌≡◌};
ghost use Rattle.vt_kinds.specs.Records.{seen};
ghost use Rattle.vt_effects.specs.Changes.{HasResult, left, changed};

mod attributes;
mod children;
mod fields;
mod references;
pub(crate) mod states;
mod texts;
mod values;

use crate::error;
use attributes::{change_attribute, execute_macro};
use children::{change_location, change_position};
use fields::{write_fields, write_fields_if};
use references::{change_active_mask, change_fill_attributes, change_soft_key_mask};
use states::{enable_disable, hide_show};
use texts::change_text;
use values::{change_item, change_value};
use vt_commands::Command;
use vt_kinds::{Child, Field, Kind, Kinds, Object};

/// Executes a command on its object. `kind_of_other` is the kind of the command's other object, or `None` if that object is
/// missing. A refusal is the error byte of the command's reply, with the bit of the first test that fails, and leaves the object
/// unchanged (ISO 11783-6; docs/PROFILE.md, "Commands: all rows").
pub fn change(
    object: &mut Object<Vec<u8>>,
    command: &Command<'_>,
    kind_of_other: Option<Kind>,
) -> Result<(), u8>
    ensures result { HasResult result (changed command.now kind_of_other (seen object.old)) }
    ensures object { seen object.new ≡ left (seen object.old) (changed command.now kind_of_other (seen object.old)) }
{
    match *command {
        Command::HideShow { state, .. } => hide_show(object, state),
        Command::EnableDisable { state, .. } => enable_disable(object, state),
        Command::ChangeChildLocation { child, dx, dy, .. } => {
            change_location(object, kind_of_other, child, dx, dy)
        }
        Command::ChangeSize { width, height, .. } => write_fields(
            object,
            Kinds::Sized,
            &[
                (Field::Width, u32::from(width)),
                (Field::Height, u32::from(height)),
            ],
        ),
        Command::ChangeBackgroundColour { colour, .. } => {
            write_fields(
                object,
                Kinds::Coloured,
                &[(Field::Colour, u32::from(colour))],
            )
        }
        Command::ChangeNumericValue { value, .. } => change_value(object, kind_of_other, value),
        Command::ChangeEndPoint {
            width,
            height,
            direction,
            ..
        } => write_fields_if(
            object,
            Kinds::Lines,
            direction <= 1,
            error::VALUE,
            &[
                (Field::Width, u32::from(width)),
                (Field::Height, u32::from(height)),
                (Field::Direction, u32::from(direction)),
            ],
        ),
        Command::ChangeFontAttributes {
            colour,
            size,
            font_type,
            style,
            ..
        } => write_fields(
            object,
            Kinds::Fonts,
            &[
                (Field::Colour, u32::from(colour)),
                (Field::Size, u32::from(size)),
                (Field::Type, u32::from(font_type)),
                (Field::Style, u32::from(style)),
            ],
        ),
        Command::ChangeLineAttributes {
            colour,
            width,
            line_art,
            ..
        } => write_fields(
            object,
            Kinds::LineAttributes,
            &[
                (Field::Colour, u32::from(colour)),
                (Field::Width, u32::from(width)),
                (Field::LineArt, u32::from(line_art)),
            ],
        ),
        Command::ChangeFillAttributes {
            fill_type,
            colour,
            pattern,
            ..
        } => change_fill_attributes(object, kind_of_other, fill_type, colour, pattern),
        Command::ChangeActiveMask { mask, .. } => change_active_mask(object, kind_of_other, mask),
        Command::ChangeSoftKeyMask {
            mask_type,
            keys,
            ..
        } => change_soft_key_mask(object, kind_of_other, mask_type, keys),
        Command::ChangeAttribute { number, value, .. } => {
            change_attribute(object, kind_of_other, number, value)
        }
        Command::ChangePriority { priority, .. } => write_fields_if(
            object,
            Kinds::AlarmMasks,
            priority <= 2,
            error::VALUE,
            &[(Field::Priority, u32::from(priority))],
        ),
        Command::ChangeListItem { index, item, .. } => {
            change_item(object, kind_of_other, index, item)
        }
        Command::ChangeStringValue {
            length,
            ref text,
            ..
        } => change_text(object, length, text.as_slice()),
        Command::ChangeChildPosition { child, x, y, .. } => {
            change_position(object, kind_of_other, &Child { id: child, x, y })
        }
        Command::ExecuteMacro { id } => execute_macro(object, id),
        Command::ControlAudio { .. } | Command::SetVolume { .. } | Command::DeletePool => Ok(()),
    }
}

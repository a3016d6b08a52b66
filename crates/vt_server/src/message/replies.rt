//! The replies to commands (ISO 11783-6, the section of each command).

ghost use Rattle.std.specs.Prelude.{◌≡◌, [], ◌∷◌};
ghost use Rattle.vt_server.specs.message.CommandEffects.{bits_of, deletes};
ghost use Rattle.vt_server.specs.message.CommandReplies as replies;

use byteorder::{ByteOrder, LittleEndian};
use vt_machine::Outcome;
use vt_objects::{Command, ObjectId};

/// Whether a command deletes the object pool.
pub(crate) fn deletes(command: &Command<'_>) -> bool
    ensures { result ≡ deletes command.now }
{
    matches!(command, Command::DeletePool)
}

/// The error byte of a command's outcome: 0 if it was done.
pub(crate) fn error_byte(outcome: Outcome) -> u8
    ensures { result ≡ bits_of outcome }
{
    match outcome {
        Outcome::Done { .. } => 0,
        Outcome::Refused { bits } => bits,
    }
}

/// The reply to a command with its error byte. docs/PROFILE.md, "Commands: all rows".
pub(crate) fn reply_to(command: &Command<'_>, error: u8) -> [u8; 8]
    ensures { result ≡ replies.command_reply command.now error }
{
    let function = command.function();
    match *command {
        Command::ControlAudio { .. } | Command::SetVolume { .. } | Command::DeletePool => {
            plain(function, error)
        }
        Command::ChangeSize { id, .. }
        | Command::ChangeEndPoint { id, .. }
        | Command::ChangeFontAttributes { id, .. }
        | Command::ChangeLineAttributes { id, .. }
        | Command::ChangeFillAttributes { id, .. }
        | Command::ChangeActiveMask { mask: id, .. }
        | Command::ExecuteMacro { id } => about(function, id, error),
        Command::HideShow { id, state: said }
        | Command::EnableDisable { id, state: said }
        | Command::ChangeBackgroundColour { id, colour: said }
        | Command::ChangeAttribute {
            id,
            number: said,
            ..
        }
        | Command::ChangePriority { id, priority: said } => about_with(function, id, said, error),
        Command::ChangeChildLocation {
            parent: first,
            child: second,
            ..
        }
        | Command::ChangeSoftKeyMask {
            mask: first,
            keys: second,
            ..
        }
        | Command::ChangeChildPosition {
            parent: first,
            child: second,
            ..
        } => { about_two(function, first, second, error) }
        Command::ChangeNumericValue { id, value } => with_value(function, id, value, error),
        Command::ChangeListItem { id, index, item } => with_item(function, id, index, item, error),
        Command::ChangeStringValue { id, .. } => of_text(function, id, error),
    }
}

fn plain(function: u8, error: u8) -> [u8; 8]
    ensures { result ≡ replies.plain function error }
{
    [function, error, 0xFF, 0xFF, 0xFF, 0xFF, 0xFF, 0xFF]
}

fn about(function: u8, id: ObjectId, error: u8) -> [u8; 8]
    ensures { result ≡ replies.about function id error }
{
    let mut bytes = [function, 0, 0, error, 0xFF, 0xFF, 0xFF, 0xFF];
    LittleEndian::write_u16(&mut bytes[1..3], id.raw());
    bytes
}

fn about_with(function: u8, id: ObjectId, said: u8, error: u8) -> [u8; 8]
    ensures { result ≡ replies.about_with function id said error }
{
    let mut bytes = [function, 0, 0, said, error, 0xFF, 0xFF, 0xFF];
    LittleEndian::write_u16(&mut bytes[1..3], id.raw());
    bytes
}

fn about_two(function: u8, first: ObjectId, second: ObjectId, error: u8) -> [u8; 8]
    ensures { result ≡ replies.about_two function first second error }
{
    let mut bytes = [function, 0, 0, 0, 0, error, 0xFF, 0xFF];
    LittleEndian::write_u16(&mut bytes[1..3], first.raw());
    LittleEndian::write_u16(&mut bytes[3..5], second.raw());
    bytes
}

fn with_value(function: u8, id: ObjectId, value: u32, error: u8) -> [u8; 8]
    ensures { result ≡ replies.value_reply function id value error }
{
    let mut bytes = [function, 0, 0, error, 0, 0, 0, 0];
    LittleEndian::write_u16(&mut bytes[1..3], id.raw());
    LittleEndian::write_u32(&mut bytes[4..8], value);
    bytes
}

fn with_item(function: u8, id: ObjectId, index: u8, item: ObjectId, error: u8) -> [u8; 8]
    ensures { result ≡ replies.with_item function id index item error }
{
    let mut bytes = [function, 0, 0, index, 0, 0, error, 0xFF];
    LittleEndian::write_u16(&mut bytes[1..3], id.raw());
    LittleEndian::write_u16(&mut bytes[4..6], item.raw());
    bytes
}

fn of_text(function: u8, id: ObjectId, error: u8) -> [u8; 8]
    ensures { result ≡ replies.of_text function id error }
{
    let mut bytes = [function, 0xFF, 0xFF, 0, 0, error, 0xFF, 0xFF];
    LittleEndian::write_u16(&mut bytes[3..5], id.raw());
    bytes
}

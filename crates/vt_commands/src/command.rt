//! The commands of an implement, decoded from their bytes.

ghost use Rattle.std.specs.Prelude.{◌≡◌, ◌≢◌, ◌≤◌, ◌+◌, length, ◌↔◌};
ghost use Rattle.vt_commands.specs.Commands as commands;
ghost use Rattle.vt_commands.specs.Commands.{command_at, function_of};

use crate::row::function;
use byteorder::{ByteOrder, LittleEndian};
use vt_kinds::{LongText, ObjectId};

/// A command that changes the objects of a working set. Its fields are decoded from its bytes and not yet
/// checked.
#[derive(Drop)]
pub enum Command<'a> {
    /// Hide (state 0) or show (state 1) a container, function A0.
    HideShow {
        id: ObjectId,
        state: u8,
    },
    /// Disable (state 0) or enable (state 1) an input, function A1.
    EnableDisable {
        id: ObjectId,
        state: u8,
    },
    /// Sound the audio signal, function A3: count, frequency in Hz, milliseconds on and off.
    ControlAudio {
        count: u8,
        frequency: u16,
        on: u16,
        off: u16,
    },
    /// Set the volume in percent, function A4.
    SetVolume {
        volume: u8,
    },
    /// Move a child by dx - 127 and dy - 127 pixels, function A5.
    ChangeChildLocation {
        parent: ObjectId,
        child: ObjectId,
        dx: u8,
        dy: u8,
    },
    /// Set the width and height in pixels, function A6.
    ChangeSize {
        id: ObjectId,
        width: u16,
        height: u16,
    },
    /// Set the background colour, function A7.
    ChangeBackgroundColour {
        id: ObjectId,
        colour: u8,
    },
    /// Set the numeric value, function A8.
    ChangeNumericValue {
        id: ObjectId,
        value: u32,
    },
    /// Set the end point of a line, function A9.
    ChangeEndPoint {
        id: ObjectId,
        width: u16,
        height: u16,
        direction: u8,
    },
    /// Set the fields of a font, function AA.
    ChangeFontAttributes {
        id: ObjectId,
        colour: u8,
        size: u8,
        font_type: u8,
        style: u8,
    },
    /// Set the fields of line attributes, function AB.
    ChangeLineAttributes {
        id: ObjectId,
        colour: u8,
        width: u8,
        line_art: u16,
    },
    /// Set the fields of fill attributes, function AC.
    ChangeFillAttributes {
        id: ObjectId,
        fill_type: u8,
        colour: u8,
        pattern: ObjectId,
    },
    /// Set the active mask of a working set, function AD.
    ChangeActiveMask {
        working_set: ObjectId,
        mask: ObjectId,
    },
    /// Set the soft key mask of a mask, function AE. The type is 1 for a data mask and 2 for an alarm mask.
    ChangeSoftKeyMask {
        mask_type: u8,
        mask: ObjectId,
        keys: ObjectId,
    },
    /// Set the attribute with a number, function AF.
    ChangeAttribute {
        id: ObjectId,
        number: u8,
        value: u32,
    },
    /// Set the priority of an alarm mask, function B0.
    ChangePriority {
        id: ObjectId,
        priority: u8,
    },
    /// Set the item at an index of a list, function B1.
    ChangeListItem {
        id: ObjectId,
        index: u8,
        item: ObjectId,
    },
    /// Delete the object pool, function B2.
    DeletePool,
    /// Set a text, function B3: the first `length` of its bytes, or all of them if there are fewer.
    ChangeStringValue {
        id: ObjectId,
        length: u16,
        text: LongText<&'a [u8]>,
    },
    /// Move a child to the position x, y, function B4.
    ChangeChildPosition {
        parent: ObjectId,
        child: ObjectId,
        x: i16,
        y: i16,
    },
    /// Run a macro by its ID, function BE.
    ExecuteMacro {
        id: ObjectId,
    },
}

impl<'a> Command<'a> {
    /// Decodes the command in a message's bytes. `None` for another function or too few bytes. Bytes after the command
    /// are ignored.
    pub fn read(bytes: &'a [u8]) -> Option<Command<'a>>
        ensures { result ≡ command_at bytes.now }
    {
        match *bytes.first()? {
            function::CHANGE_STRING_VALUE => string_value(bytes),
            function::CHANGE_CHILD_POSITION => child_position(bytes),
            _ => eight_bytes(bytes),
        }
    }

    /// The function, which is the first byte of the command and of its reply.
    pub fn function(&self) -> u8
        ensures { result ≡ function_of self.now }
    {
        match self {
            Command::HideShow { .. } => function::HIDE_SHOW,
            Command::EnableDisable { .. } => function::ENABLE_DISABLE,
            Command::ControlAudio { .. } => function::CONTROL_AUDIO,
            Command::SetVolume { .. } => function::SET_VOLUME,
            Command::ChangeChildLocation { .. } => function::CHANGE_CHILD_LOCATION,
            Command::ChangeSize { .. } => function::CHANGE_SIZE,
            Command::ChangeBackgroundColour { .. } => function::CHANGE_BACKGROUND_COLOUR,
            Command::ChangeNumericValue { .. } => function::CHANGE_NUMERIC_VALUE,
            Command::ChangeEndPoint { .. } => function::CHANGE_END_POINT,
            Command::ChangeFontAttributes { .. } => function::CHANGE_FONT_ATTRIBUTES,
            Command::ChangeLineAttributes { .. } => function::CHANGE_LINE_ATTRIBUTES,
            Command::ChangeFillAttributes { .. } => function::CHANGE_FILL_ATTRIBUTES,
            Command::ChangeActiveMask { .. } => function::CHANGE_ACTIVE_MASK,
            Command::ChangeSoftKeyMask { .. } => function::CHANGE_SOFT_KEY_MASK,
            Command::ChangeAttribute { .. } => function::CHANGE_ATTRIBUTE,
            Command::ChangePriority { .. } => function::CHANGE_PRIORITY,
            Command::ChangeListItem { .. } => function::CHANGE_LIST_ITEM,
            Command::DeletePool => function::DELETE_POOL,
            Command::ChangeStringValue { .. } => function::CHANGE_STRING_VALUE,
            Command::ChangeChildPosition { .. } => function::CHANGE_CHILD_POSITION,
            Command::ExecuteMacro { .. } => function::EXECUTE_MACRO,
        }
    }
}

/// Decodes Change String Value, of at least five bytes.
fn string_value<'a>(bytes: &'a [u8]) -> Option<Command<'a>>
    ensures { commands.byte bytes.now 0 ≡ commands.CHANGE_STRING_VALUE → result ≡ command_at bytes.now }
{
    if bytes.len() < 5 {
        return None;
    }
    let (front, text) = bytes.split_at(5);
    let length = word(front, 3);
    let count = text.len().min(usize::from(length));
    Some(Command::ChangeStringValue {
        id: id(front, 1),
        length,
        text: LongText::new(&text[..count]),
    })
}

/// Decodes Change Child Position, of at least nine bytes.
fn child_position<'a>(bytes: &[u8]) -> Option<Command<'a>>
    ensures { commands.byte bytes.now 0 ≡ commands.CHANGE_CHILD_POSITION → result ≡ command_at bytes.now }
{
    if bytes.len() < 9 {
        return None;
    }
    Some(Command::ChangeChildPosition {
        parent: id(bytes, 1),
        child: id(bytes, 3),
        x: word(bytes, 5).cast_signed(),
        y: word(bytes, 7).cast_signed(),
    })
}

/// Decodes a command of eight bytes.
fn eight_bytes<'a>(bytes: &[u8]) -> Option<Command<'a>>
    ensures { commands.byte bytes.now 0 ≢ commands.CHANGE_STRING_VALUE → commands.byte bytes.now 0 ≢ commands.CHANGE_CHILD_POSITION → result ≡ command_at bytes.now }
{
    if bytes.len() < 8 {
        return None;
    }
    match bytes[0] {
        function::HIDE_SHOW => Some(Command::HideShow {
            id: id(bytes, 1),
            state: bytes[3],
        }),
        function::ENABLE_DISABLE => Some(Command::EnableDisable {
            id: id(bytes, 1),
            state: bytes[3],
        }),
        function::CONTROL_AUDIO => Some(Command::ControlAudio {
            count: bytes[1],
            frequency: word(bytes, 2),
            on: word(bytes, 4),
            off: word(bytes, 6),
        }),
        function::SET_VOLUME => Some(Command::SetVolume { volume: bytes[1] }),
        function::CHANGE_CHILD_LOCATION => Some(Command::ChangeChildLocation {
            parent: id(bytes, 1),
            child: id(bytes, 3),
            dx: bytes[5],
            dy: bytes[6],
        }),
        function::CHANGE_SIZE => Some(Command::ChangeSize {
            id: id(bytes, 1),
            width: word(bytes, 3),
            height: word(bytes, 5),
        }),
        function::CHANGE_BACKGROUND_COLOUR => Some(Command::ChangeBackgroundColour {
            id: id(bytes, 1),
            colour: bytes[3],
        }),
        function::CHANGE_NUMERIC_VALUE => Some(Command::ChangeNumericValue {
            id: id(bytes, 1),
            value: long(bytes, 4),
        }),
        function::CHANGE_END_POINT => Some(Command::ChangeEndPoint {
            id: id(bytes, 1),
            width: word(bytes, 3),
            height: word(bytes, 5),
            direction: bytes[7],
        }),
        function::CHANGE_FONT_ATTRIBUTES => Some(Command::ChangeFontAttributes {
            id: id(bytes, 1),
            colour: bytes[3],
            size: bytes[4],
            font_type: bytes[5],
            style: bytes[6],
        }),
        function::CHANGE_LINE_ATTRIBUTES => Some(Command::ChangeLineAttributes {
            id: id(bytes, 1),
            colour: bytes[3],
            width: bytes[4],
            line_art: word(bytes, 5),
        }),
        function::CHANGE_FILL_ATTRIBUTES => Some(Command::ChangeFillAttributes {
            id: id(bytes, 1),
            fill_type: bytes[3],
            colour: bytes[4],
            pattern: id(bytes, 5),
        }),
        function::CHANGE_ACTIVE_MASK => Some(Command::ChangeActiveMask {
            working_set: id(bytes, 1),
            mask: id(bytes, 3),
        }),
        function::CHANGE_SOFT_KEY_MASK => Some(Command::ChangeSoftKeyMask {
            mask_type: bytes[1],
            mask: id(bytes, 2),
            keys: id(bytes, 4),
        }),
        function::CHANGE_ATTRIBUTE => Some(Command::ChangeAttribute {
            id: id(bytes, 1),
            number: bytes[3],
            value: long(bytes, 4),
        }),
        function::CHANGE_PRIORITY => Some(Command::ChangePriority {
            id: id(bytes, 1),
            priority: bytes[3],
        }),
        function::CHANGE_LIST_ITEM => Some(Command::ChangeListItem {
            id: id(bytes, 1),
            index: bytes[3],
            item: id(bytes, 4),
        }),
        function::DELETE_POOL => Some(Command::DeletePool),
        function::EXECUTE_MACRO => Some(Command::ExecuteMacro { id: id(bytes, 1) }),
        _ => None,
    }
}

/// The ID at an offset.
fn id(bytes: &[u8], place: usize) -> ObjectId
    requires { place + 2 ≤ length bytes.now }
    ensures { result ≡ commands.word bytes.now place }
{
    ObjectId::from_raw(word(bytes, place))
}

/// The number of two bytes at an offset.
fn word(bytes: &[u8], place: usize) -> u16
    requires { place + 2 ≤ length bytes.now }
    ensures { result ≡ commands.word bytes.now place }
{
    LittleEndian::read_u16(&bytes[place..])
}

/// The number of four bytes at an offset.
fn long(bytes: &[u8], place: usize) -> u32
    requires { place + 4 ≤ length bytes.now }
    ensures { result ≡ commands.long bytes.now place }
{
    LittleEndian::read_u32(&bytes[place..])
}

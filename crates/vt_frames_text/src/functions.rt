//! The functions of messages by name, and the error bytes of replies.

ghost use Rattle.std.specs.Prelude.{◌≡◌, ℕ, Some};
ghost use Rattle.vt_commands.specs.declared.command.Command.{Command};
ghost use Rattle.vt_server.specs.message.CommandReplies.{command_reply};
ghost use Rattle.vt_frames_text.specs.Replies.{error_in, error_place};

use crate::pool_requests::{
    DELETE_VERSION, GET_VERSIONS, GET_VERSIONS_RESPONSE, LOAD_VERSION, STORE_VERSION,
};
use vt_can::assigned::{
    END_OF_POOL, GET_FONTS, GET_HARDWARE, GET_MEMORY, GET_SOFT_KEYS, TRANSFER, VT_STATUS,
};
use vt_commands::CommandRow;
use vt_commands::function::{BUTTON_ACTIVATION, NUMERIC_VALUE, SOFT_KEY_ACTIVATION, STRING_VALUE};

/// VT Select Input Object: the operator has selected an input, or left it.
pub const SELECT_INPUT: u8 = 0x03;

/// Working Set Maintenance.
pub const MAINTENANCE: u8 = 0xFF;

/// The name of the function of a message to or from a terminal, such as `Hide/Show Object`. `None` if it is not known.
pub fn function_name(function: u8) -> Option<&'static str> {
    match CommandRow::of(function) {
        Some(row) => Some(row.name),
        None => other_name(function),
    }
}

/// The name of a function that is no command's.
fn other_name(function: u8) -> Option<&'static str> {
    match function {
        SOFT_KEY_ACTIVATION => Some("Soft Key Activation"),
        BUTTON_ACTIVATION => Some("Button Activation"),
        SELECT_INPUT => Some("Select Input Object"),
        NUMERIC_VALUE => Some("Numeric Value"),
        STRING_VALUE => Some("String Value"),
        TRANSFER => Some("Object Pool Transfer"),
        END_OF_POOL => Some("End of Object Pool"),
        GET_MEMORY => Some("Get Memory"),
        GET_SOFT_KEYS => Some("Get Number of Soft Keys"),
        GET_FONTS => Some("Get Text Font Data"),
        GET_HARDWARE => Some("Get Hardware"),
        GET_VERSIONS => Some("Get Versions"),
        GET_VERSIONS_RESPONSE => Some("Get Versions Response"),
        STORE_VERSION => Some("Store Version"),
        LOAD_VERSION => Some("Load Version"),
        DELETE_VERSION => Some("Delete Version"),
        VT_STATUS => Some("VT Status"),
        MAINTENANCE => Some("Working Set Maintenance"),
        _ => name_elsewhere(function),
    }
}

/// The name of a function that other terminals or other versions of the standard have, and this terminal does not (ISO 11783-6).
fn name_elsewhere(function: u8) -> Option<&'static str> {
    match function {
        0x02 => Some("Pointing Event"),
        0x04 => Some("VT Esc"),
        0x06 => Some("VT Change Active Mask"),
        0x07 => Some("VT Change Soft Key Mask"),
        0x09 => Some("VT On User-Layout Hide/Show"),
        0x0A => Some("VT Control Audio Signal Termination"),
        0x20 => Some("Auxiliary Assignment Type 1"),
        0x21 => Some("Auxiliary Input Type 1 Status"),
        0x22 => Some("Preferred Assignment"),
        0x23 => Some("Auxiliary Input Type 2 Maintenance"),
        0x24 => Some("Auxiliary Assignment Type 2"),
        0x25 => Some("Auxiliary Input Status Type 2 Enable"),
        0x26 => Some("Auxiliary Input Type 2 Status"),
        0x27 => Some("Auxiliary Capabilities"),
        0x90 => Some("Select Active Working Set"),
        0x92 => Some("Esc"),
        0xA2 => Some("Select Input Object Command"),
        0xB5 => Some("Change Object Label"),
        0xB6 => Some("Change Polygon Point"),
        0xB7 => Some("Change Polygon Scale"),
        0xB8 => Some("Graphics Context"),
        0xB9 => Some("Get Attribute Value"),
        0xBA => Some("Select Colour Map"),
        0xBB => Some("Identify VT"),
        0xBC => Some("Execute Extended Macro"),
        0xBD => Some("Lock/Unlock Mask"),
        0xC1 => Some("Get Supported Wide Characters"),
        0xC4 => Some("Get Window Mask Data"),
        0xC5 => Some("Get Supported Objects"),
        0xD3 => Some("Extended Get Versions"),
        0xD4 => Some("Extended Store Version"),
        0xD5 => Some("Extended Load Version"),
        0xD6 => Some("Extended Delete Version"),
        0xFD => Some("Unsupported VT Function"),
        _ => None,
    }
}

/// The error byte of a terminal's reply. `None` if the reply of that function has none.
pub fn error_of(message: &[u8]) -> Option<u8>
    ensures table { result ≡ error_in message.now }
    // Of a terminal's reply to a command, it is the error byte of the command.
    ensures command { (command : Command) (error : ℕ) → message.now ≡ command_reply command error → result ≡ Some error }
{
    let [function, ..] = message else {
        return None;
    };
    let place = error_place(*function)?;
    message.get(place).copied()
}

/// The index of the error byte in the reply of a function.
fn error_place(function: u8) -> Option<usize>
    ensures { result ≡ error_place function }
{
    match CommandRow::of(function) {
        Some(row) => Some(row.error_at),
        None if function == END_OF_POOL => Some(1),
        None => None,
    }
}

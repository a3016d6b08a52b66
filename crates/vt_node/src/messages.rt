//! Messages of the terminal.

ghost use Rattle.std.specs.Prelude.{◌≡◌, []};
ghost use Rattle.vt_can.specs.Assigned.{GLOBAL_ADDRESS};
ghost use Rattle.vt_node.specs.Messages.{message_to, claim_from, memory_reply, soft_keys_reply, fonts_reply, hardware_reply, technical_reply};

use crate::profile::{Profile, VERSION};
use arrayvec::ArrayVec;
use byteorder::{ByteOrder, LittleEndian};
use vt_can::assigned::{
    ADDRESS_CLAIMED, FILL, GET_FONTS, GET_HARDWARE, GET_MEMORY, GET_SOFT_KEYS, GLOBAL_ADDRESS,
    VT_TO_ECU,
};
use vt_can::{CanId, Frame};
use vt_names::Name;

/// The priority of the terminal's messages.
const MESSAGE_PRIORITY: u8 = 5;

/// The priority of address claims.
const CLAIM_PRIORITY: u8 = 6;

/// A message to the master of a working set.
pub fn message_to(own: u8, address: u8, bytes: [u8; 8]) -> Frame
    ensures { result ≡ message_to own address bytes }
{
    Frame {
        id: CanId::new(MESSAGE_PRIORITY, VT_TO_ECU, address, own),
        bytes: ArrayVec::from(bytes),
    }
}

/// A frame without data from the terminal to all nodes. The terminal takes such a frame as an echo.
pub fn echo(own: u8) -> Frame
    ensures { result ≡ message_to own GLOBAL_ADDRESS [] }
{
    Frame {
        id: CanId::new(MESSAGE_PRIORITY, VT_TO_ECU, GLOBAL_ADDRESS, own),
        bytes: ArrayVec::new(),
    }
}

/// Address Claimed, or Cannot Claim from the null address.
pub fn claim_from(address: u8, name: Name) -> Frame
    ensures { result ≡ claim_from address name }
{
    let mut bytes = [0; 8];
    LittleEndian::write_u64(&mut bytes, name.raw());
    Frame {
        id: CanId::new(CLAIM_PRIORITY, ADDRESS_CLAIMED, GLOBAL_ADDRESS, address),
        bytes: ArrayVec::from(bytes),
    }
}

/// The reply to a request for technical data of the terminal, or `None` for any other message.
/// docs/PROFILE.md, "Other messages".
pub fn technical_reply(profile: &Profile, bytes: &[u8]) -> Option<[u8; 8]>
    ensures { result ≡ technical_reply profile.now bytes.now }
{
    match *bytes.first()? {
        GET_MEMORY if bytes.len() >= 6 => {
            Some(memory_reply(profile, LittleEndian::read_u32(&bytes[2..])))
        }
        GET_SOFT_KEYS => Some(soft_keys_reply(profile)),
        GET_FONTS => Some(fonts_reply(profile)),
        GET_HARDWARE => Some(hardware_reply(profile)),
        _ => None,
    }
}

fn memory_reply(profile: &Profile, asked: u32) -> [u8; 8]
    ensures { result ≡ memory_reply profile.now asked }
{
    let status = if asked <= profile.memory { 0 } else { 1 };
    [GET_MEMORY, VERSION, status, FILL, FILL, FILL, FILL, FILL]
}

fn soft_keys_reply(profile: &Profile) -> [u8; 8]
    ensures { result ≡ soft_keys_reply profile.now }
{
    [
        GET_SOFT_KEYS,
        FILL,
        FILL,
        FILL,
        profile.soft_key_width,
        profile.soft_key_height,
        profile.virtual_soft_keys,
        profile.physical_soft_keys,
    ]
}

fn fonts_reply(profile: &Profile) -> [u8; 8]
    ensures { result ≡ fonts_reply profile.now }
{
    [
        GET_FONTS,
        FILL,
        FILL,
        FILL,
        FILL,
        profile.small_fonts,
        profile.large_fonts,
        profile.font_styles,
    ]
}

fn hardware_reply(profile: &Profile) -> [u8; 8]
    ensures { result ≡ hardware_reply profile.now }
{
    let mut bytes = [
        GET_HARDWARE,
        profile.boot_time,
        profile.graphic_type,
        profile.hardware,
        0,
        0,
        0,
        0,
    ];
    LittleEndian::write_u16(&mut bytes[4..6], profile.width);
    LittleEndian::write_u16(&mut bytes[6..8], profile.height);
    bytes
}

//! Decoding of frames for the terminal (ISO 11783-5, ISO 11783-6).

ghost use Rattle.std.specs.Prelude.{◌≡◌, ◌≤◌, length};
ghost use Rattle.byteorder.specs.Endian.{little_number};
ghost use Rattle.vt_node.specs.declared.bus.FrameMeaning.TheVariants as declared;
ghost use Rattle.vt_node.specs.Bus.{frame_meaning, meaning_of, unless_echo};

use byteorder::{ByteOrder, LittleEndian};
use vt_can::Frame;
use vt_can::assigned::{
    ADDRESS_CLAIMED, ECU_TO_VT, ETP_CM, ETP_DT, GLOBAL_ADDRESS, REQUEST, TP_CM, TP_DT,
    WORKING_SET_MASTER, WORKING_SET_MEMBER,
};
use vt_names::Name;

/// The meaning of a frame for the terminal.
#[derive(Clone, Copy, PartialEq, Eq)]
pub enum FrameMeaning {
    /// A NAME claims the source address.
    Claim(Name),
    /// A request for the terminal's address claim.
    ClaimRequest,
    /// The source is the master of a working set with `count` members.
    Master { count: u8 },
    /// A NAME is a member of the working set of the source.
    Member(Name),
    /// The bytes are a message to the terminal.
    Message,
    /// A frame of the transport protocol.
    Tp,
    /// A frame of the extended transport protocol.
    Etp,
    /// A frame to be ignored.
    Nothing,
}

/// Returns the meaning of a frame for the terminal with this address and NAME. docs/PROFILE.md, "Echoes".
pub fn meaning_of(own: u8, name: Name, frame: &Frame) -> FrameMeaning
    ensures { result ≡ meaning_of own name frame.now }
{
    let meaning = frame_meaning(own, frame);
    if frame.id.source() != own {
        return meaning;
    }
    unless_echo(name, meaning)
}

// Ignores a frame from the own address as an echo, except for a claim by another NAME.
fn unless_echo(name: Name, meaning: FrameMeaning) -> FrameMeaning
    ensures { result ≡ unless_echo name meaning }
{
    match meaning {
        FrameMeaning::Claim(other) => unless_own(name, other),
        _ => FrameMeaning::Nothing,
    }
}

fn unless_own(name: Name, other: Name) -> FrameMeaning
    ensures { result ≡ unless_echo name (declared.Claim other) }
{
    if other == name {
        return FrameMeaning::Nothing;
    }
    FrameMeaning::Claim(other)
}

fn frame_meaning(own: u8, frame: &Frame) -> FrameMeaning
    ensures { result ≡ frame_meaning own frame.now }
{
    let bytes = frame.bytes.as_slice();
    let destination = frame.id.destination();
    let to_all = destination == Some(GLOBAL_ADDRESS);
    let to_terminal = destination == Some(own);
    match frame.id.pgn() {
        ADDRESS_CLAIMED if to_all && bytes.len() >= 8 => FrameMeaning::Claim(name_in(bytes)),
        REQUEST if (to_terminal || to_all) && bytes.starts_with(&[0x00, 0xEE, 0x00]) => {
            FrameMeaning::ClaimRequest
        }
        WORKING_SET_MASTER if !bytes.is_empty() => FrameMeaning::Master { count: bytes[0] },
        WORKING_SET_MEMBER if bytes.len() >= 8 => FrameMeaning::Member(name_in(bytes)),
        ECU_TO_VT if to_terminal => FrameMeaning::Message,
        TP_CM | TP_DT => FrameMeaning::Tp,
        ETP_CM | ETP_DT => FrameMeaning::Etp,
        _ => FrameMeaning::Nothing,
    }
}

// The NAME in the first eight bytes.
fn name_in(bytes: &[u8]) -> Name
    requires { 8 ≤ length bytes.now }
    ensures { result ≡ little_number 8 bytes.now }
{
    Name::from_raw(LittleEndian::read_u64(bytes))
}
